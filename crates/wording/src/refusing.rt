// Refusals in words, with document 01's number behind them.
use common::Refusal;
use std::fmt;
use std::fmt::{Display, Formatter};

// Why a function is refused, and a file where the header is right and the number is not 15.
#[derive(Drop)]
pub struct Reason(pub Refusal);

impl Display for Reason {
    fn fmt<W: fmt::Write>(&self, f: &mut Formatter<W>) -> fmt::Result {
        f.write_str(match self.0 {
            Refusal::UnsetRegister(_) => "a way reads a register that nothing has set",
            Refusal::TooDeep => "functions within functions, more than 32 levels",
            Refusal::ReachesInvalid(_) => "control can reach a word that can't be trusted",
            Refusal::NoWords => "no words",
            Refusal::ShortSlice => "more than 131,072 functions",
            Refusal::UnknownTag(_) => "damaged: a constant of no known kind",
            Refusal::TooManyWords => "more than 32,768 words",
            _ => "damaged",
        })
    }
}

// The number of a refusal, and its place where it has one that is told.
#[derive(Drop)]
pub struct Number(pub Refusal);

impl Display for Number {
    fn fmt<W: fmt::Write>(&self, f: &mut Formatter<W>) -> fmt::Result {
        let number = self.0.number();
        match self.0 {
            Refusal::UnknownTag(place) => write!(f, " ({number}, constant {place})"),
            Refusal::ReachesInvalid(place) | Refusal::UnsetRegister(place) => {
                write!(f, " ({number}, word {place})")
            }
            _ => write!(f, " ({number})"),
        }
    }
}

// A file that is refused: its bytes, why, and whether they end early, as `index::ends_early` says.
#[derive(Clone, Copy)]
pub struct Refused<'a> {
    pub bytes: &'a [u8],
    pub refusal: Refusal,
    pub is_cut: bool,
}

// Where a header has the sizes of an integer and of a number.
const INTEGER: usize = 13;

const NUMBER: usize = 14;

impl Refused<'_> {
    // Whether the header is that of a Lua with LUA_32BITS.
    fn is_small(self) -> bool {
        self.bytes.get(INTEGER) == Some(&4) || self.bytes.get(NUMBER) == Some(&4)
    }
}

// Why a file is refused.
#[derive(Drop)]
pub struct Why<'a>(pub Refused<'a>);

impl Display for Why<'_> {
    fn fmt<W: fmt::Write>(&self, f: &mut Formatter<W>) -> fmt::Result {
        let refused = self.0;
        match (headers::why_refused(refused.bytes), refused.refusal) {
            (headers::Why::NotLua, _) => f.write_str("not a compiled Lua script"),
            (headers::Why::Lua53, _) => f.write_str("of Lua 5.3: this reads 5.4"),
            (headers::Why::OtherVersion, _) => f.write_str("of another Lua: this reads 5.4"),
            (headers::Why::OtherNumbers, _) if refused.is_small() => {
                f.write_str("of a Lua with 32-bit numbers")
            }
            (headers::Why::OtherNumbers, _) => {
                f.write_str("damaged, or of a Lua with other numbers: its first bytes differ")
            }
            (headers::Why::Damaged, Refusal::MalformedChunk) if refused.is_cut => {
                f.write_str("damaged: the bytes end early")
            }
            (headers::Why::Damaged, Refusal::MalformedChunk) => f.write_str(
                "damaged, or a function of more than 32,768 words or 65,536 constants",
            ),
            (headers::Why::Damaged, refusal) => write!(f, "{}", Reason(refusal)),
        }
    }
}
