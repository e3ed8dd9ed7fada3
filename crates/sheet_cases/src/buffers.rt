// Large sheets: the same bytes over and over, but for some.
use vectors::list_of;

// bytes | places | what stands there
pub fn repeated(line: &[u8]) -> [u8; 65536] {
    let mut buffer = io::large_buffer();
    let mut bytes = [0u8; 256];
    let mut places = [0u32; 4];
    let mut other = [0u8; 4];
    let bytes = list_of(&mut bytes, line, 2);
    for (to, &b) in buffer.iter_mut().zip(bytes.iter().cycle()) {
        *to = b;
    }
    let places = list_of(&mut places, line, 3);
    let other = list_of(&mut other, line, 4);
    for (i, &place) in places.iter().enumerate() {
        if let Some(at) = buffer.get_mut(place as usize) {
            *at = other.get(i).copied().unwrap_or(0);
        }
    }
    buffer
}
