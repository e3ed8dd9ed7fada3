// The parts of a line, and tables that lists are read into.
ghost use Rattle.std.specs.Prelude.{◌≤◌, length};

use crate::lists::{Element, fill, number_at_start};

// Part k of a line; nothing where it has fewer.
pub fn part(line: &[u8], k: usize) -> &[u8] {
    line.split(|&b| b == b'|').nth(k).unwrap_or(&line[..0])
}

// The number that part k of a line begins with.
pub fn number_of(line: &[u8], k: usize) -> u64 {
    number_at_start(part(line, k))
}

// Part k of a line, a list, read into a table: so much of the table as the list has.
pub fn list_of<'a, T: Element>(table: &'a mut [T], line: &[u8], k: usize) -> &'a mut [T]
    ensures { length result.now ≤ length table.old }
{
    let n = fill(table, part(line, k));
    if n <= table.len() {
        return &mut table[..n];
    }
    table
}

// Whether the line that is printed is left open for the next.
pub fn is_open(line: &[u8]) -> bool {
    line.last() == Some(&b'\\')
}
