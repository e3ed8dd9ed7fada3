// A meter among what a line lends, and as the test programs print one.
#![tactic(auto)]

use meter::Meter;
use print_cases::{number, text};
use std::io::Stdout;

// So many numbers a meter has.
pub const NUMBERS: usize = 5;

// The number at a place of a list, 0 where it has fewer.
fn at(list: &[u32], i: usize) -> u32 {
    list.get(i).copied().unwrap_or(0)
}

// Begun, last, count, services, highest: of a list of them, or 0 past its end.
pub fn meter_of(list: &[u32]) -> Meter {
    Meter {
        begun: at(list, 0),
        last: at(list, 1),
        count: at(list, 2),
        services: at(list, 3),
        highest: at(list, 4),
    }
}

pub fn show(out: Stdout, m: Meter) {
    text(out, b";");
    for n in [m.begun, m.last, m.count, m.services, m.highest] {
        number(out, n);
    }
}
