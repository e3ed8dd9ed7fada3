// The distances of all words, from the highest down: an edge that does not serve goes forward, so that
// what it needs is there. Where control goes is read from the entries that the search leaves, and a word's
// distance stands where the search had its queue, above the entry: less 1, so that no distance is too large
// for it. No word is read and no mark, since how far a service is does not depend on how a word is reached.
ghost use Rattle.std.specs.Prelude.{◌≡◌, ◌+◌};
ghost use Rattle.graph.specs.Distance.{nearer};
ghost use Rattle.sweep.specs.Entries.{entries, graph_in};
ghost use Rattle.service.specs.Pass.{noted, Nearing, Holds, Notes};

use sweep::edges::serves;
use sweep::inner::{ENTRIES, KIND_NEXT, KIND_NONE, KIND_TARGET, TARGETS};

// The distance of word p, less 1, where those of the words above it are noted, and `above` is that of the
// next. It is handed on, so that a turn need not wait for what the one before it stored.
fn distance_at(lengths: &[u32], p: usize, above: u32) -> u32
    requires { Nearing lengths.now p above }
    ensures { result + 1 ≡ nearer (graph_in (entries lengths.now)) (noted lengths.now) p }
{
    let entry = lengths[p] % ENTRIES;
    let kind = entry / TARGETS;
    if kind == KIND_NEXT {
        return above + 1;
    }
    if kind == KIND_NONE {
        return 0;
    }
    let to = (entry % TARGETS) as usize;
    let x = lengths[to] / ENTRIES;
    if serves(p, to) {
        return 0;
    }
    if kind == KIND_TARGET {
        return x + 1;
    }
    above.min(x) + 1
}

// Notes the distances of the words from `from` on. The entries stay.
pub(crate) fn note_distances(from: usize, lengths: &mut [u32])
    requires { Holds lengths.old }
    ensures { Notes from lengths.old lengths.new }
{
    let mut above: u32 = 0;
    for i in (from..lengths.len()).rev() {
        above = distance_at(lengths, i, above);
        lengths[i] = lengths[i] % ENTRIES + above * ENTRIES;
    }
}
