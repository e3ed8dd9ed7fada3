// The first pass: how many words, constants and names a function needs.
ghost use Rattle.std.specs.Prelude.{◌≡◌};
ghost use Rattle.lundump.specs.Search.{reported};

use crate::functions::Layout;
use common::Refusal;
use common::numbers::ACCEPTED;

// What both passes answer. Of a refusal the counts are 0.
#[repr(C)]
#[derive(Drop)]
pub struct Counts {
    pub number: u64,
    pub place: u64,
    pub words: u64,
    pub constants: u64,
    pub names: u64,
}

impl From<Result<Layout, Refusal>> for Counts {
    ghost from_gives = { λ located counts. counts ≡ reported located };

    fn from(located: Result<Layout, Refusal>) -> Counts {
        match located {
            Ok(f) => Counts {
                number: u64::from(ACCEPTED),
                place: 0,
                words: f.words as u64,
                constants: f.constants as u64,
                names: f.names as u64,
            },
            Err(e) => Counts {
                number: u64::from(e.number()),
                place: e.place() as u64,
                words: 0,
                constants: 0,
                names: 0,
            },
        }
    }
}
