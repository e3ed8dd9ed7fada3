// How a run goes on from a word.
use fields::lua54::opcodes::{
    OP_ADDI, OP_CALL, OP_EQ, OP_JMP, OP_SHR, OP_TAILCALL, OP_TESTSET, OP_TFORCALL,
};
use fields::lua54::word::opcode;
use steps::lua54::successors::successors;
use sweep::edges::{Successors, serves};

#[derive(Clone, Copy)]
pub enum Way {
    // To the only word that follows, or past a metamethod's: arithmetic is no branch of the script.
    Straight,
    // To one of two; the other.
    Branch(usize),
    // To one of two; the other step serves.
    Turn(usize),
    // It ends, since the function returns.
    Returns,
    // It ends by a step that serves.
    Back(usize),
}

// Word p, MOVE where there is none.
fn word_at(words: &[u32], p: usize) -> u32 {
    words.get(p).copied().unwrap_or(0)
}

// Whether word p is arithmetic, whose other step leads through its metamethod.
fn is_arithmetic(words: &[u32], p: usize) -> bool {
    matches!(opcode(word_at(words, p)), OP_ADDI..=OP_SHR)
}

pub(crate) fn is_call(words: &[u32], p: usize) -> bool {
    matches!(
        opcode(word_at(words, p)),
        OP_CALL | OP_TAILCALL | OP_TFORCALL
    )
}

pub(crate) fn is_test(words: &[u32], p: usize) -> bool {
    matches!(opcode(word_at(words, p)), OP_EQ..=OP_TESTSET)
}

// How a run ends at word p.
pub(crate) fn ending(words: &[u32], p: usize) -> Way {
    match successors(words, p) {
        Successors::Invalid | Successors::Stop => Way::Returns,
        Successors::One(q) | Successors::Two(q, _) => Way::Back(q),
    }
}

// How a run goes on from word p to word q.
pub(crate) fn going(words: &[u32], p: usize, q: usize) -> Way {
    if is_arithmetic(words, p) {
        return Way::Straight;
    }
    let Successors::Two(a, b) = successors(words, p) else {
        return Way::Straight;
    };
    let other = if a == q { b } else { a };
    if serves(p, other) {
        Way::Turn(other)
    } else {
        Way::Branch(other)
    }
}

// Where a way leads: of a jump the word that it jumps to.
pub fn landing(words: &[u32], p: usize) -> usize {
    if opcode(word_at(words, p)) != OP_JMP {
        return p;
    }
    match successors(words, p) {
        Successors::One(q) => q,
        _ => p,
    }
}
