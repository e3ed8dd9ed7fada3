// The C interface, of both versions: the answer as a struct of numbers, since an exported
// function may give no enum.
ghost use Rattle.std.specs.Prelude.{◌≡◌, length};
ghost use Rattle.fields.specs.declared.version.Version.TheVariants.{Lua53};
ghost use Rattle.runs.specs.Script.{script_of, lua54};
ghost use Rattle.witness.specs.Witness.{path_run_of, marks_witnessed, lengths_witnessed, path_witnessed};
ghost use Rattle.witness_c.specs.Flat.{flat_path};

use common::Refusal;
use fields::version::Version;
use witness::{PathRun, longest_path};

#[repr(C)]
#[derive(Drop)]
pub struct FlatPath {
    pub number: u64,
    pub place: u64,
    pub longest: u64,
    pub first: u64,
    pub count: u64,
}

impl From<Result<PathRun, Refusal>> for FlatPath {
    ghost from_gives = { λ answer flat. flat ≡ flat_path answer };

    fn from(answer: Result<PathRun, Refusal>) -> FlatPath {
        match answer {
            Ok(PathRun { run, count }) => FlatPath {
                number: 0,
                place: 0,
                longest: u64::from(run.longest),
                first: run.first as u64,
                count: count as u64,
            },
            Err(refusal) => FlatPath {
                number: u64::from(refusal.number()),
                place: refusal.place() as u64,
                longest: 0,
                first: 0,
                count: 0,
            },
        }
    }
}

#[unsafe(no_mangle)]
pub extern "C" fn lawendeb_longest_path(
    words: &[u32],
    weights: &[u8],
    marks: &mut [u8],
    lengths: &mut [u32],
    path: &mut [u32],
) -> FlatPath
    ensures value { result ≡ flat_path (path_run_of (lua54 words.now) weights.now
        (length marks.old) (length lengths.old) (length path.old)) }
    ensures marks_after { marks.new ≡ marks_witnessed (lua54 words.now) weights.now
        marks.old lengths.old path.old }
    ensures lengths_after { lengths.new ≡ lengths_witnessed (lua54 words.now) weights.now
        marks.old lengths.old path.old }
    ensures path_after { path.new ≡ path_witnessed (lua54 words.now) weights.now
        marks.old lengths.old path.old }
{
    FlatPath::from(longest_path(Version::Lua54, words, weights, marks, lengths, path))
}

#[unsafe(no_mangle)]
pub extern "C" fn lawendeb_longest_path_53(
    words: &[u32],
    weights: &[u8],
    marks: &mut [u8],
    lengths: &mut [u32],
    path: &mut [u32],
) -> FlatPath
    ensures value { result ≡ flat_path (path_run_of (script_of Lua53 words.now) weights.now
        (length marks.old) (length lengths.old) (length path.old)) }
    ensures marks_after { marks.new ≡ marks_witnessed (script_of Lua53 words.now) weights.now
        marks.old lengths.old path.old }
    ensures lengths_after { lengths.new ≡ lengths_witnessed (script_of Lua53 words.now) weights.now
        marks.old lengths.old path.old }
    ensures path_after { path.new ≡ path_witnessed (script_of Lua53 words.now) weights.now
        marks.old lengths.old path.old }
{
    FlatPath::from(longest_path(Version::Lua53, words, weights, marks, lengths, path))
}
