// Questions, a line each.
use std::io::Stdin;

// Asks each line that stands on standard input, as far as there is room.
pub fn ask_each<F: FnMut(&[u8])>(stdin: Stdin, mut ask: F)
    requires { F.IsAlwaysCallable ask }
{
    let mut source = stdin;
    let mut page = io::large_buffer();
    let n = input::read_full(&mut source, &mut page);
    for line in page[..n].split(|&b| b == b'\n') {
        ask(line);
    }
}
