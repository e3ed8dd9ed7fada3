// Lists of items that are read one by one: one loop for all kinds.
ghost use Rattle.std.specs.Prelude.{◌≡◌, ℕ};
ghost use Rattle.loaders.specs.Reading.{Reader, repeat, past_of};
ghost use Rattle.lundump.specs.Lundump.{load_abs_line, load_loc_var};
ghost use Rattle.lundump.specs.Limited.{Reads};

use common::Refusal;
use loaders::Read;
use loaders::inner::{int, string};

#[tactic(auto, unfolding(crate::specs::Lundump::load_abs_line))]
pub(crate) fn abs_line(chunk: &[u8], at: usize) -> Read<usize>
    ensures { result ≡ load_abs_line 0 chunk.now at }
{
    let (_, at) = int(chunk, at)?;
    int(chunk, at)
}

#[tactic(auto, unfolding(crate::specs::Lundump::load_loc_var))]
pub(crate) fn loc_var(chunk: &[u8], at: usize) -> Read<usize>
    ensures { result ≡ load_loc_var 0 chunk.now at }
{
    let (_, at) = string(chunk, at)?;
    let (_, at) = int(chunk, at)?;
    int(chunk, at)
}

// So many items: the position past them.
#[tactic(auto, using(crate::proofs::Repeats::turns))]
pub(crate) fn items<T: Drop, F: Fn(&[u8], usize, usize) -> Read<T>>(
    chunk: &[u8],
    from: usize,
    n: usize,
    item: F,
) -> Result<usize, Refusal>
    ghost reader: { ℕ → Reader T }
    requires callable { F.IsAlwaysCallable item }
    requires reads { Reads (F.post item) reader }
    ensures { result ≡ past_of (repeat reader 0 n chunk.now from) }
{
    let mut at = from;
    for i in 0..n {
        let (_, past) = item(chunk, at, i)?;
        at = past;
    }
    Ok(at)
}
