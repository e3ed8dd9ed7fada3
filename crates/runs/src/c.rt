// For C: answers as structs of numbers, since an exported function may give no enum. Both versions'
// exports answer with them.
ghost use Rattle.std.specs.Prelude.{◌≡◌};
ghost use Rattle.runs.specs.Flat.{flat_successors, flat_run};

use crate::longest::Longest;
use common::Refusal;
use sweep::edges::Successors;

#[repr(C)]
#[derive(Drop)]
pub struct FlatSuccessors {
    pub kind: u64,
    pub first: u64,
    pub second: u64,
}

#[repr(C)]
#[derive(Drop)]
pub struct FlatRun {
    pub number: u64,
    pub place: u64,
    pub longest: u64,
    pub first: u64,
}

impl From<Successors> for FlatSuccessors {
    ghost from_gives = { λ s flat. flat ≡ flat_successors s };

    fn from(s: Successors) -> FlatSuccessors {
        let (kind, first, second) = match s {
            Successors::Invalid => (0, 0, 0),
            Successors::Stop => (1, 0, 0),
            Successors::One(q) => (2, q, 0),
            Successors::Two(q, r) => (3, q, r),
        };
        FlatSuccessors {
            kind,
            first: first as u64,
            second: second as u64,
        }
    }
}

impl From<Result<Longest, Refusal>> for FlatRun {
    ghost from_gives = { λ run flat. flat ≡ flat_run run };

    fn from(run: Result<Longest, Refusal>) -> FlatRun {
        match run {
            Ok(Longest { longest, first }) => FlatRun {
                number: 0,
                place: 0,
                longest: u64::from(longest),
                first: first as u64,
            },
            Err(refusal) => FlatRun {
                number: u64::from(refusal.number()),
                place: refusal.place() as u64,
                longest: 0,
                first: 0,
            },
        }
    }
}
