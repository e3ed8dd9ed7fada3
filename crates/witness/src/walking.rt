// The words of one longest stretch, from its first on: where control can go on without a service, the longest
// way from there.
ghost use Rattle.std.specs.Prelude.{◌≡◌, ℕ, ◌<◌, length};
ghost use Rattle.sweep.specs.PassInvariants.{at};
ghost use Rattle.sweep.specs.declared.edges.Successors.{Successors};
ghost use Rattle.sweep.specs.Steps.{list_of, serves_of, Below};
ghost use Rattle.runs.specs.Script.{Script, script_of};
ghost use Rattle.witness.specs.Following.{onwards};
ghost use Rattle.witness.specs.Walking.{Walks, Walked};

use fields::version::Version;
use sweep::edges::{Successors, serves};

// Of the steps of word p to which the step does not serve, the one with the greatest length, the lower on a
// tie: where a longest stretch goes on from there, if it does.
fn go_on(steps: Successors, lengths: &[u32], p: usize) -> Option<usize>
    requires { Below (length lengths.now) steps }
    ensures { result ≡ onwards serves_of (at lengths.now) p (list_of steps) }
{
    match steps {
        Successors::Invalid | Successors::Stop => None,
        Successors::One(a) => if serves(p, a) { None } else { Some(a) },
        Successors::Two(a, b) => match (serves(p, a), serves(p, b)) {
            (true, true) => None,
            (true, false) => Some(b),
            (false, true) => Some(a),
            (false, false) => if lengths[a] < lengths[b] {
                Some(b)
            } else {
                Some(a)
            },
        },
    }
}

// Writes the words of the stretch from `first` on, as many as there are words at the most. How many they are.
// `steps` gives those of each word by its own version.
fn write_path<F: Fn(usize) -> Successors>(
    steps: F,
    n: usize,
    lengths: &[u32],
    first: usize,
    path: &mut [u32],
) -> usize
    ghost script: { Script }
    requires callable { F.IsAlwaysCallable steps }
    requires steps { (p : ℕ) (s : Successors) → p < n → F.post steps p s → s ≡ script.steps p }
    requires walks { Walks script n lengths.now first path.old }
    ensures { Walked script lengths.now first path.old path.new result }
{
    let mut p = first;
    for count in 0..n {
        path[count] = p as u32;
        let Some(q) = go_on(steps(p), lengths, p) else {
            return count + 1;
        };
        p = q;
    }
    n
}

// The same by the words' version, which is asked once.
pub(crate) fn walk(
    version: Version,
    words: &[u32],
    lengths: &[u32],
    first: usize,
    path: &mut [u32],
) -> usize
    requires { Walks (script_of version words.now) (length words.now) lengths.now first path.old }
    ensures { Walked (script_of version words.now) lengths.now first path.old path.new result }
{
    let n = words.len();
    match version {
        Version::Lua54 => {
            write_path(
                |p| steps::lua54::successors::successors(words, p),
                n,
                lengths,
                first,
                path,
            )
        }
        Version::Lua53 => {
            write_path(
                |p| steps::lua53::successors::successors(words, p),
                n,
                lengths,
                first,
                path,
            )
        }
    }
}
