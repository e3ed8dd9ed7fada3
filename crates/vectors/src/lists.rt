// Lists of numbers, read into tables that are lent.
ghost use Rattle.std.specs.Prelude.{◌≡◌, ℕ, ◌%◌};

// What a table holds: of a number as many of its low bits as there is room for.
pub trait Element: Copy {
    ghost low: { ℕ → Self };

    fn of(n: u64) -> Self
        ensures { result ≡ low n };
}

impl Element for u8 {
    ghost low = { λ n. n % 256 };

    fn of(n: u64) -> u8 {
        (n % 256) as u8
    }
}

impl Element for u32 {
    ghost low = { λ n. n % 4294967296 };

    fn of(n: u64) -> u32 {
        (n % 4294967296) as u32
    }
}

impl Element for u64 {
    ghost low = { λ n. n };

    fn of(n: u64) -> u64 {
        n
    }
}

// A number with a digit more; from 18446744073709551620 on it starts again from the lowest.
fn with_digit(n: u64, digit: u8) -> u64 {
    (n % 1844674407370955162 * 10).wrapping_add(u64::from(digit))
}

// The number that the digits at the start show, 0 where there is none.
pub fn number_at_start(text: &[u8]) -> u64 {
    let mut n: u64 = 0;
    for &b in text {
        if !b.is_ascii_digit() {
            break;
        }
        n = with_digit(n, b - b'0');
    }
    n
}

// A number, and how often it stands in the list.
#[derive(Clone, Copy)]
struct Item {
    times: u64,
    number: u64,
}

// An item of a list: `70`, or `3*9` for 9 three times.
fn item_of(text: &[u8]) -> Item {
    let mut parts = text.split(|&b| b == b'*');
    let first = number_at_start(parts.next().unwrap_or(b""));
    match parts.next() {
        Some(number) => Item {
            times: first,
            number: number_at_start(number),
        },
        None => Item {
            times: 1,
            number: first,
        },
    }
}

// The items of a list stand a blank apart.
fn is_apart(b: u8) -> bool {
    !b.is_ascii_digit() && b != b'*'
}

// Fills a table with a list as far as there is room: how many elements there are.
pub(crate) fn fill<T: Element>(table: &mut [T], list: &[u8]) -> usize {
    let room = table.len();
    let mut k = 0;
    for text in list.split(|&b| is_apart(b)) {
        if !text.is_empty() {
            let item = item_of(text);
            for _ in 0..item.times {
                if k < room {
                    table[k] = T::of(item.number);
                    k += 1;
                }
            }
        }
    }
    k
}
