// A record as one number: a sum over the 53 numbers that `lifted` makes of it, in their order.
use lifted::numbers_of;
use values::ir::SemanticInstruction;

fn mix(sum: u64, x: u64) -> u64 {
    (sum % 2147483647 * 31 + x % 4294967291) % 2147483647
}

pub fn record(sum: u64, r: SemanticInstruction) -> u64 {
    numbers_of(r).iter().fold(sum, |mixed, &x| mix(mixed, x))
}
