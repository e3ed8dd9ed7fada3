// The answer of number and place as C gets it, of every entry that gives nothing beside its refusal.
ghost use Rattle.std.specs.Prelude.{◌≡◌};
ghost use Rattle.common.specs.Flat.{flat_result};

use crate::numbers::ACCEPTED;
use crate::refusal::Refusal;

// "Each answer carries its number, 0 when accepted, and a place, 0 unless named."
#[repr(C)]
#[derive(Drop)]
pub struct FlatAnswer {
    pub number: u64,
    pub place: u64,
}

impl From<Result<(), Refusal>> for FlatAnswer {
    ghost from_gives = { λ answer flat. flat ≡ flat_result answer };

    fn from(answer: Result<(), Refusal>) -> FlatAnswer {
        match answer {
            Ok(()) => FlatAnswer {
                number: ACCEPTED as u64,
                place: 0,
            },
            Err(refusal) => FlatAnswer {
                number: refusal.number() as u64,
                place: refusal.place() as u64,
            },
        }
    }
}
