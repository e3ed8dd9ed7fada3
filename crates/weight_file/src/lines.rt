// The lines of a weights file.

// A line that can't be read, by its number, from 1.
#[derive(Clone, Copy, Debug, PartialEq, Eq)]
pub struct BadLine(pub usize);

// The names of the opcodes, as `luac -l` writes them, in the order of lopcodes.h's OpCode.
static NAMES: [&str; 83] = [
    "MOVE",
    "LOADI",
    "LOADF",
    "LOADK",
    "LOADKX",
    "LOADFALSE",
    "LFALSESKIP",
    "LOADTRUE",
    "LOADNIL",
    "GETUPVAL",
    "SETUPVAL",
    "GETTABUP",
    "GETTABLE",
    "GETI",
    "GETFIELD",
    "SETTABUP",
    "SETTABLE",
    "SETI",
    "SETFIELD",
    "NEWTABLE",
    "SELF",
    "ADDI",
    "ADDK",
    "SUBK",
    "MULK",
    "MODK",
    "POWK",
    "DIVK",
    "IDIVK",
    "BANDK",
    "BORK",
    "BXORK",
    "SHRI",
    "SHLI",
    "ADD",
    "SUB",
    "MUL",
    "MOD",
    "POW",
    "DIV",
    "IDIV",
    "BAND",
    "BOR",
    "BXOR",
    "SHL",
    "SHR",
    "MMBIN",
    "MMBINI",
    "MMBINK",
    "UNM",
    "BNOT",
    "NOT",
    "LEN",
    "CONCAT",
    "CLOSE",
    "TBC",
    "JMP",
    "EQ",
    "LT",
    "LE",
    "EQK",
    "EQI",
    "LTI",
    "LEI",
    "GTI",
    "GEI",
    "TEST",
    "TESTSET",
    "CALL",
    "TAILCALL",
    "RETURN",
    "RETURN0",
    "RETURN1",
    "FORLOOP",
    "FORPREP",
    "TFORPREP",
    "TFORCALL",
    "TFORLOOP",
    "SETLIST",
    "CLOSURE",
    "VARARG",
    "VARARGPREP",
    "EXTRAARG",
];

// The names stand apart: split anew for each line of a file, they took nearly half as long again.
fn opcode_named(name: &str) -> Option<usize> {
    NAMES.iter().position(|known| *known == name)
}

// A weight from 1 to 255, in one to three digits.
fn weight(text: &str) -> Option<u8> {
    if 3 < text.len() || text.starts_with('+') {
        return None;
    }
    text.parse::<u8>().ok().filter(|weight| *weight != 0)
}

// A name, a blank and a weight: the opcode and what it weighs.
fn entry(line: &[u8]) -> Option<(usize, u8)> {
    let (name, text) = std::str::from_utf8(line).ok()?.split_once(' ')?;
    Some((opcode_named(name)?, weight(text)?))
}

// Stores the weights that the lines of a file give, of which an empty one gives none. A line may end by a
// carriage return, too.
pub fn read_weights(bytes: &[u8], weights: &mut [u8]) -> Result<(), BadLine> {
    for (i, whole) in bytes.split(|b| *b == b'\n').enumerate() {
        let line = whole.strip_suffix(b"\r").unwrap_or(whole);
        if line.is_empty() {
            continue;
        }
        let (opcode, weight) = entry(line).ok_or(BadLine(i.saturating_add(1)))?;
        if let Some(place) = weights.get_mut(opcode) {
            *place = weight;
        }
    }
    Ok(())
}
