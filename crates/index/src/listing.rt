// All functions of a chunk. Its bytes are read once to count them, so that nothing is stored unless all of
// the chunk is accepted and each slice has room, and once more to store where each stands.
ghost use Rattle.std.specs.Prelude.{◌≡◌, ◌+◌, ◌≤◌, length, IfOk};
ghost use Rattle.common.specs.Limits.{most_bytes};
ghost use Rattle.loaders.specs.Reading.{read_as};
ghost use Rattle.lundump.specs.Lundump.{load_function, load_protos};
ghost use Rattle.index.specs.Listing.{functions_of, listed_of, listed_in, places_of, parents_of, after_all};
ghost use Rattle.index.specs.Noting.{main_from, tallied, told, WroteAt, Noted};

use common::Refusal;
use common::limits::{LEVELS_BELOW, MOST_BYTES};
use common::numbers::ACCEPTED;
use loaders::Read;
use loaders::inner::{byte, int};
use lundump::inner::{code, constants, function, head, header, lines, names, upvalues};

// Of a refusal the count is 0.
#[repr(C)]
#[derive(Drop)]
pub struct Listed {
    pub number: u64,
    pub place: u64,
    pub functions: u64,
}

impl From<Result<usize, Refusal>> for Listed {
    ghost from_gives = { λ tally listed. listed ≡ told tally };

    fn from(tally: Result<usize, Refusal>) -> Listed {
        match tally {
            Ok(n) => Listed {
                number: u64::from(ACCEPTED),
                place: 0,
                functions: n as u64,
            },
            Err(refusal) => Listed {
                number: u64::from(refusal.number()),
                place: refusal.place() as u64,
                functions: 0,
            },
        }
    }
}

// No function.
// Kept: (a) a number and no Option: it stands in the lent list of parents (lawendeb_chunk_index).
const NO_FUNCTION: usize = 18446744073709551615;

// Where the main function stands, behind the header and a byte.
#[tactic(auto, using(crate::proofs::Counting::too_long, crate::proofs::Counting::no_header, crate::proofs::Counting::no_byte, crate::proofs::Counting::main_there))]
fn main_at(chunk: &[u8]) -> Result<usize, Refusal>
    ensures value { result ≡ main_from chunk.now }
    ensures few { IfOk result (λ at. length chunk.now ≤ most_bytes) }
{
    if MOST_BYTES < chunk.len() {
        return Err(Refusal::MalformedChunk);
    }
    let at = header(chunk)?;
    let (_, main) = byte(chunk, at)?;
    Ok(main)
}

// How many functions are read from there on, by the search for one that no chunk has.
#[tactic(auto, using(crate::proofs::Counting::left_few, crate::proofs::Counting::left_all, crate::proofs::Counting::none_found, crate::proofs::Counting::was_stopped))]
fn tally_from(chunk: &[u8], at: usize) -> Result<usize, Refusal>
    requires { length chunk.now ≤ most_bytes }
    ensures { result ≡ tallied (load_function 31 chunk.now at) }
{
    match function(chunk, at, LEVELS_BELOW, Err(MOST_BYTES))? {
        (Err(left), _) => Ok(MOST_BYTES - left),
        (Ok(_), _) => Err(Refusal::MalformedChunk),
    }
}

#[tactic(auto, using(crate::proofs::Counting::no_main, crate::proofs::Counting::from_main))]
pub(crate) fn take_tally(chunk: &[u8]) -> Result<usize, Refusal>
    ensures { result ≡ tallied (functions_of chunk.now) }
{
    let at = main_at(chunk)?;
    tally_from(chunk, at)
}

// How many functions a chunk has.
// Kept: (a) as lawendeb_chunk_functions answers; the clause speaks of C's numbers.
pub fn count_functions(chunk: &[u8]) -> Listed
    ensures { result ≡ listed_of (functions_of chunk.now) }
{
    Listed::from(take_tally(chunk))
}

// Function i stands there, in this one.
fn note(i: usize, at: usize, parent: usize, places: &mut [u64], parents: &mut [u64])
    ensures { Noted i at parent places.old parents.old places.new
        parents.new }
{
    if i < places.len() && i < parents.len() {
        places[i] = at as u64;
        parents[i] = parent as u64;
    }
}

// So many numbers past i, up to the room.
fn past(i: usize, n: usize, room: usize) -> usize
    ensures { (i + n ≤ room) → (result ≡ i + n) }
{
    i.saturating_add(n).min(room)
}

// loadFunction, with so many levels left below it: it has number i and stands in `parent`.
// How many functions it is with those within it.
#[cycle(list_function_list_protos)]
fn list_function(
    chunk: &[u8],
    at: usize,
    level: u32,
    parent: usize,
    i: usize,
    places: &mut [u64],
    parents: &mut [u64],
) -> Read<usize>
    ensures value { result ≡ read_as length (load_function level chunk.now at) }
    ensures wrote_at { WroteAt (load_function level) chunk.now at parent i places.old
        parents.old places.new parents.new }
{
    let (_, code_at) = head(chunk, at)?;
    let (_, constants_at) = code(chunk, code_at)?;
    let (_, upvalues_at) = constants(chunk, constants_at)?;
    let (upvalues, protos_at) = upvalues(chunk, upvalues_at)?;
    note(i, at, parent, places, parents);
    let next = past(i, 1, places.len());
    let (inner, lines_at) = list_protos(chunk, protos_at, level, i, next, places, parents)?;
    let names_at = lines(chunk, lines_at)?;
    let end = names(chunk, names_at, upvalues)?;
    Ok((inner + 1, end))
}

// loadProtos: the first function within has number `first`, and all stand in `parent`. How many functions
// they are with those within them.
// One frame a level with `list_function`, not two.
#[inline(always)]
#[cycle(list_function_list_protos)]
fn list_protos(
    chunk: &[u8],
    at: usize,
    level: u32,
    parent: usize,
    first: usize,
    places: &mut [u64],
    parents: &mut [u64],
) -> Read<usize>
    ensures value { result ≡ read_as length (load_protos level chunk.now at) }
    ensures wrote_at { WroteAt (load_protos level) chunk.now at parent first places.old
        parents.old places.new parents.new }
{
    let (n, start) = int(chunk, at)?;
    if level == 0 {
        if n != 0 {
            return Err(Refusal::TooDeep);
        }
        return Ok((0, start));
    }
    let mut at = start;
    let mut total: usize = 0;
    for _i in 0..n {
        let next = past(first, total, places.len());
        let (more, behind) = list_function(chunk, at, level - 1, parent, next, places, parents)?;
        at = behind;
        total += more;
    }
    Ok((total, at))
}

// The second reading: the number of the functions, if each slice has room for them.
fn list_all(chunk: &[u8], places: &mut [u64], parents: &mut [u64]) -> Result<usize, Refusal>
    ensures value { result ≡ tallied (listed_in chunk.now (length places.old)
        (length parents.old)) }
    ensures places_after { places.new ≡ after_all places_of (listed_in chunk.now
        (length places.old) (length parents.old)) places.old }
    ensures parents_after { parents.new ≡ after_all parents_of (listed_in chunk.now
        (length places.old) (length parents.old)) parents.old }
{
    let at = main_at(chunk)?;
    let n = tally_from(chunk, at)?;
    if places.len().min(parents.len()) < n {
        return Err(Refusal::ShortSlice);
    }
    // The first reading accepted what this one reads.
    let _ = list_function(chunk, at, LEVELS_BELOW, NO_FUNCTION, 0, places, parents);
    Ok(n)
}

// Where each function of a chunk stands, and the number of the one that it stands in.
// Kept: (a) as lawendeb_chunk_index answers; `value` speaks of C's numbers.
pub fn list_functions(chunk: &[u8], places: &mut [u64], parents: &mut [u64]) -> Listed
    ensures value { result ≡ listed_of (listed_in chunk.now (length places.old)
        (length parents.old)) }
    ensures places_after { places.new ≡ after_all places_of (listed_in chunk.now
        (length places.old) (length parents.old)) places.old }
    ensures parents_after { parents.new ≡ after_all parents_of (listed_in chunk.now
        (length places.old) (length parents.old)) parents.old }
{
    Listed::from(list_all(chunk, places, parents))
}
