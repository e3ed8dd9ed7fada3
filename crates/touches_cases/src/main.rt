// What words touch, of Lua 5.4 and of 5.3. The questions stand in the file stdin, a line each (crate
// vectors), and what is printed is held to the stored output.
#![tactic(auto)]

mod print;

use std::io::Stdout;
use touches::{Touches, touches, touches_53};
use vectors::{list_of, number_of, part};

// words | p, by the version that the name says
fn ask(out: Stdout, line: &[u8]) {
    let touched: fn(&[u32], usize) -> Touches = match part(line, 0) {
        b"touches" => touches,
        b"touches_53" => touches_53,
        _ => {
            return;
        }
    };
    let mut words = [0u32; 8];
    let words = list_of(&mut words, line, 2);
    print::text(out, part(line, 1));
    print::touches(out, touched(words, number_of(line, 3) as usize));
}

fn main(rt: HostRuntime) {
    let out = rt.stdout();
    vectors::inner::ask_each(rt.stdin(), |line| ask(out, line));
}
