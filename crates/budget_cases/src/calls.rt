// The calls. A line has what each is lent, in the order of its parameters.
use budget::{Meters, begin_four, feed_four, reset_four};
use common::Refusal;
use common::c::FlatAnswer;
use fields::version::Version;
use lent_meters::{NUMBERS, meter_of, show};
use print_cases::{number, text};
use std::io::Stdout;
use vectors::{ROOM, list_of, number_of};

// Four meters, one after another.
fn meters_of(list: &[u32]) -> Meters {
    let mut each = list.chunks(NUMBERS);
    let axis = meter_of(each.next().unwrap_or(&[]));
    let focuser = meter_of(each.next().unwrap_or(&[]));
    let dome = meter_of(each.next().unwrap_or(&[]));
    let guider = meter_of(each.next().unwrap_or(&[]));
    Meters {
        axis,
        focuser,
        dome,
        guider,
    }
}

// What a call on these meters gave: a refusal leaves them as they were.
fn told(out: Stdout, before: Meters, called: Result<Meters, Refusal>) {
    let answer = FlatAnswer::from(called.map(|_| ()));
    number(out, answer.number);
    if answer.place != 0 {
        text(out, b" at");
        number(out, answer.place);
    }
    let ms = called.unwrap_or(before);
    for m in [ms.axis, ms.focuser, ms.dome, ms.guider] {
        show(out, m);
    }
}

// Part k as a number of 32 bits.
fn small_of(line: &[u8], k: usize) -> u32 {
    (number_of(line, k) % 4294967296) as u32
}

// Only its label is printed.
pub fn title(_: Stdout, _: &[u8]) {}

// words | weights | the meters | script | budget | q
pub fn feed(out: Stdout, line: &[u8]) {
    let mut words = [0u32; ROOM];
    let mut weights = [0u8; 256];
    let mut ms = [0u32; 4 * NUMBERS];
    let words = list_of(&mut words, line, 2);
    let weights = list_of(&mut weights, line, 3);
    let ms = meters_of(list_of(&mut ms, line, 4));
    let script = small_of(line, 5);
    let budget = small_of(line, 6);
    let q = number_of(line, 7) as usize;
    told(
        out,
        ms,
        feed_four(Version::Lua54, words, weights, ms, script, budget, q),
    );
}

// the meters | script
pub fn begin(out: Stdout, line: &[u8]) {
    let mut ms = [0u32; 4 * NUMBERS];
    let ms = meters_of(list_of(&mut ms, line, 2));
    told(out, ms, begin_four(ms, small_of(line, 3)));
}

// the meters | script
pub fn reset(out: Stdout, line: &[u8]) {
    let mut ms = [0u32; 4 * NUMBERS];
    let ms = meters_of(list_of(&mut ms, line, 2));
    told(out, ms, reset_four(ms, small_of(line, 3)));
}
