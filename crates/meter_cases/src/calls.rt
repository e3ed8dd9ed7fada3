// The calls. A line has what each is lent, in the order of its parameters.
use common::c::FlatAnswer;
use fields::version::Version;
use lent_meters::{NUMBERS, meter_of, show};
use meter::{Meter, feed_step};
use print_cases::{number, text};
use std::io::Stdout;
use vectors::{ROOM, list_of, number_of};

fn show_fed(out: Stdout, answer: FlatAnswer, m: Meter) {
    number(out, answer.number);
    if answer.place != 0 {
        text(out, b" at");
        number(out, answer.place);
    }
    show(out, m);
}

// Only its label is printed.
pub fn title(_: Stdout, _: &[u8]) {}

// words | weights | the meter | q
pub fn feed(out: Stdout, line: &[u8]) {
    let mut words = [0u32; ROOM];
    let mut weights = [0u8; 256];
    let mut m = [0u32; NUMBERS];
    let words = list_of(&mut words, line, 2);
    let weights = list_of(&mut weights, line, 3);
    let m = meter_of(list_of(&mut m, line, 4));
    let fed = feed_step(
        Version::Lua54,
        words,
        weights,
        m,
        number_of(line, 5) as usize,
    );
    show_fed(out, FlatAnswer::from(fed.map(|_| ())), fed.unwrap_or(m));
}

// the meter
pub fn begin(out: Stdout, line: &[u8]) {
    let mut m = [0u32; NUMBERS];
    show(out, meter::begin_step(meter_of(list_of(&mut m, line, 2))));
}

// the meter
pub fn reset(out: Stdout, line: &[u8]) {
    let mut m = [0u32; NUMBERS];
    show(out, meter::reset_step(meter_of(list_of(&mut m, line, 2))));
}

// Feeds words 0 to the last, and writes only what is left in the end: the meter, and the number of the last
// feed that was refused.
// words | weights | the meter
pub fn straight(out: Stdout, line: &[u8]) {
    let mut words = [0u32; ROOM];
    let mut weights = [0u8; 256];
    let mut m = [0u32; NUMBERS];
    let words = list_of(&mut words, line, 2);
    let weights = list_of(&mut weights, line, 3);
    let mut meter = meter_of(list_of(&mut m, line, 4));
    let mut answer = Ok(());
    for q in 0..words.len() {
        match feed_step(Version::Lua54, words, weights, meter, q) {
            Ok(next) => meter = next,
            Err(refusal) => answer = Err(refusal),
        }
    }
    show_fed(out, FlatAnswer::from(answer), meter);
}
