// Bytes as numbers.
ghost use Rattle.std.specs.Prelude.{◌≡◌, ◌+◌, ◌≤◌, length};
ghost use Rattle.loaders.specs.Reading.{little_end};

// The word at a position, its lowest byte first.
#[tactic(auto, unfolding(crate::specs::Reading::little_end))]
pub fn word_of_bytes(chunk: &[u8], at: usize) -> u32
    requires { at + 4 ≤ length chunk.now }
    ensures { result ≡ little_end 4 chunk.now at }
{
    u32::from_le_bytes([chunk[at], chunk[at + 1], chunk[at + 2], chunk[at + 3]])
}

// The eight bytes at a position, lowest first.
#[tactic(auto, using(crate::proofs::Words::two_words))]
pub(crate) fn number_of_bytes(chunk: &[u8], at: usize) -> u64
    requires { at + 8 ≤ length chunk.now }
    ensures { result ≡ little_end 8 chunk.now at }
{
    let low = u64::from(word_of_bytes(chunk, at));
    let high = u64::from(word_of_bytes(chunk, at + 4));
    low + 4294967296 * high
}
