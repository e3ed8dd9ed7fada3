// The answer as C gets it, plain numbers, since an exported function may give no enum.
ghost use Rattle.std.specs.Prelude.{◌≡◌};
ghost use Rattle.rehearsal.specs.Flat.{flat_rehearsal};

use crate::rehearsing::Waits;
use common::Refusal;

// The refusal's number and place, or 0 and 0 and the longest wait of each script.
#[repr(C)]
#[derive(Drop)]
pub struct FlatRehearsal {
    pub number: u64,
    pub place: u64,
    pub first: u64,
    pub second: u64,
    pub third: u64,
    pub fourth: u64,
}

impl From<Result<Waits, Refusal>> for FlatRehearsal {
    ghost from_gives = { λ rehearsal flat. flat ≡ flat_rehearsal rehearsal };

    #[tactic(auto, unfolding(crate::specs::Flat::flat_rehearsal))]
    fn from(rehearsal: Result<Waits, Refusal>) -> FlatRehearsal {
        match rehearsal {
            Ok(waits) => FlatRehearsal {
                number: 0,
                place: 0,
                first: u64::from(waits[0]),
                second: u64::from(waits[1]),
                third: u64::from(waits[2]),
                fourth: u64::from(waits[3]),
            },
            Err(refusal) => FlatRehearsal {
                number: u64::from(refusal.number()),
                place: refusal.place() as u64,
                first: 0,
                second: 0,
                third: 0,
                fourth: 0,
            },
        }
    }
}
