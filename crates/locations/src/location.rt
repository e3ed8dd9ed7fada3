// What a word names: a part of the registers, a constant or an upvalue.
ghost use Rattle.std.specs.Prelude.{◌≡◌, option_to_list};
ghost use Rattle.locations.specs.Lists.{intervals_of, tops_of, constants_of, upvalues_of};
ghost use Rattle.locations.specs.Canonical.{filled};

use crate::interval::Interval;

// Registers by the first and the one past the last, none if the two are equal.
#[derive(Clone, Copy)]
pub enum Location {
    Nothing,
    Registers(u16, u16),
    ToTop(u16),
    Constant(u32),
    Upvalue(u32),
}

// What it holds of each kind.
impl Location {
    pub fn registers(self) -> Option<Interval>
        ensures { option_to_list result ≡ filled (intervals_of self) }
    {
        match self {
            Location::Registers(first, end) if first < end => Some(Interval { first, end }),
            _ => None,
        }
    }

    pub fn top(self) -> Option<u16>
        ensures { option_to_list result ≡ tops_of self }
    {
        match self {
            Location::ToTop(first) => Some(first),
            _ => None,
        }
    }

    pub fn constant(self) -> Option<u32>
        ensures { option_to_list result ≡ constants_of self }
    {
        match self {
            Location::Constant(index) => Some(index),
            _ => None,
        }
    }

    pub fn upvalue(self) -> Option<u32>
        ensures { option_to_list result ≡ upvalues_of self }
    {
        match self {
            Location::Upvalue(index) => Some(index),
            _ => None,
        }
    }
}
