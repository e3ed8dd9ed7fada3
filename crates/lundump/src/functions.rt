// Functions and the functions within them.
ghost use Rattle.std.specs.Prelude.{◌≡◌};
ghost use Rattle.loaders.specs.Reading.{read_as};
ghost use Rattle.lundump.specs.Lundump.{load_function, load_protos};
ghost use Rattle.lundump.specs.Search.{search, passed, settled, roomy};

use crate::parts::{code, constants, head, lines, names, upvalues};
use common::Refusal;
use loaders::Read;
use loaders::inner::int;

// Where a function's head stands, and the counts of its words, constants, line information and names,
// and how many it has of each.
#[derive(Clone, Copy)]
pub struct Layout {
    pub first_at: usize,
    pub code_at: usize,
    pub words: usize,
    pub constants_at: usize,
    pub constants: usize,
    pub lines_at: usize,
    pub names_at: usize,
    pub names: usize,
}

// The lengths of the lent slices.
#[derive(Clone, Copy)]
pub struct Rooms {
    pub words: usize,
    pub tags: usize,
    pub payloads: usize,
    pub names: usize,
}

impl Layout {
    // Each slice has room.
    pub fn fits(self, rooms: Rooms) -> bool
        ensures { result ≡ roomy self rooms }
    {
        self.words <= rooms.words
            && self.constants <= rooms.tags
            && self.constants <= rooms.payloads
            && self.names <= rooms.names
    }
}

// The function that is looked for; or so many come before it.
pub type Search = Result<Layout, usize>;

// One function is passed.
fn pass(s: Search) -> Search
    ensures { result ≡ passed s }
{
    s.map_err(|n| n.saturating_sub(1))
}

// The end of a function: the search found it if none was left, else it stands as after those within.
fn settle(s: Search, own: Layout, inner: Search) -> Search
    ensures { result ≡ settled s own inner }
{
    match s {
        Err(0) => Ok(own),
        _ => inner,
    }
}

// loadFunction, with so many levels left below it
#[cycle(function_protos)]
pub fn function(chunk: &[u8], at: usize, level: u32, s: Search) -> Read<Search>
    ensures { result ≡ read_as (search s) (load_function level chunk.now at) }
{
    let (_, code_at) = head(chunk, at)?;
    let (words, constants_at) = code(chunk, code_at)?;
    let (constants, upvalues_at) = constants(chunk, constants_at)?;
    let (upvalues, protos_at) = upvalues(chunk, upvalues_at)?;
    let (inner, lines_at) = protos(chunk, protos_at, level, pass(s))?;
    let names_at = lines(chunk, lines_at)?;
    let past = names(chunk, names_at, upvalues)?;
    let own = Layout {
        first_at: at,
        code_at,
        words,
        constants_at,
        constants,
        lines_at,
        names_at,
        names: upvalues,
    };
    Ok((settle(s, own, inner), past))
}

// loadProtos: a level 33 is met at the count that needs it
// One frame a level with `function`, not two: the stack that a pass takes is so many frames.
#[inline(always)]
#[cycle(function_protos)]
fn protos(chunk: &[u8], at: usize, level: u32, s: Search) -> Read<Search>
    ensures { result ≡ read_as (search s) (load_protos level chunk.now at) }
{
    let (n, start) = int(chunk, at)?;
    if level == 0 {
        if n != 0 {
            return Err(Refusal::TooDeep);
        }
        return Ok((s, start));
    }
    let mut found = s;
    let mut at = start;
    for _i in 0..n {
        let (next, past) = function(chunk, at, level - 1, found)?;
        found = next;
        at = past;
    }
    Ok((found, at))
}
