// Calls on a meter, with what each answers and leaves: begun, last, count, services, highest.
use crate::print::text;
use fields::version::Version;
use lent_meters::{NUMBERS, meter_of, show};
use meter::feed_step;
use print_cases::refusal;
use std::io::Stdout;
use vectors::{ROOM, list_of, number_of};

// words | weights | the meter | q
pub fn feed(out: Stdout, line: &[u8]) {
    let mut words = [0u32; ROOM];
    let mut weights = [0u8; 256];
    let mut m = [0u32; NUMBERS];
    let words = list_of(&mut words, line, 2);
    let weights = list_of(&mut weights, line, 3);
    let m = meter_of(list_of(&mut m, line, 4));
    let q = number_of(line, 5) as usize;
    match feed_step(Version::Lua53, words, weights, m, q) {
        Ok(next) => {
            text(out, b" accepted");
            show(out, next);
        }
        Err(e) => {
            refusal(out, e);
            show(out, m);
        }
    }
}

// the meter
pub fn begin(out: Stdout, line: &[u8]) {
    let mut m = [0u32; NUMBERS];
    show(out, meter::begin_step(meter_of(list_of(&mut m, line, 2))));
}

// the meter
pub fn reset(out: Stdout, line: &[u8]) {
    let mut m = [0u32; NUMBERS];
    show(out, meter::reset_step(meter_of(list_of(&mut m, line, 2))));
}
