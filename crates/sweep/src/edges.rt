// Where control can go from a word, and which edges serve. No word is read here: whatever instruction set the
// edges come from, what follows goes by them alone. The enum stands apart from the function `successors` of
// crate `steps`, whose name differs only in case.
ghost use Rattle.std.specs.Prelude.{◌≡◌, ◌<◌, pos};
ghost use Rattle.graph.specs.Graph.{member};
ghost use Rattle.sweep.specs.Steps.{one, two, is_invalid, list_of, serves_of};

#[derive(Clone, Copy, PartialEq)]
pub enum Successors {
    // A bad word, or no word at all.
    Invalid,
    // The function returns.
    Stop,
    One(usize),
    // The lower first.
    Two(usize, usize),
}

impl Successors {
    pub fn is_invalid(self) -> bool
        ensures { result ≡ is_invalid self }
    {
        self == Successors::Invalid
    }
}

// Whether a step from p to q serves.
#[tactic(auto, unfolding(crate::specs::Steps::serves_of))]
pub fn serves(p: usize, q: usize) -> bool
    ensures { result ≡ serves_of p q }
{
    q <= p
}

// One next word, of n words.
#[tactic(auto, unfolding(crate::specs::Steps::one, crate::specs::Steps::unless))]
pub fn one_of(n: usize, q: usize) -> Successors
    ensures { result ≡ one n (pos q) }
{
    if q < n {
        Successors::One(q)
    } else {
        Successors::Invalid
    }
}

// Two next words, the lower first.
#[tactic(auto, unfolding(crate::specs::Steps::two, crate::specs::Steps::unless, crate::specs::Steps::ordered))]
pub fn two_of(n: usize, q: usize, r: usize) -> Successors
    requires { q < r }
    ensures { result ≡ two n (pos q) (pos r) }
{
    if r < n {
        Successors::Two(q, r)
    } else {
        Successors::Invalid
    }
}

// Two next words in any order.
#[tactic(auto, using(crate::proofs::Steps::two_equal, crate::proofs::Steps::two_swap))]
pub fn both_of(n: usize, q: usize, r: usize) -> Successors
    ensures { result ≡ two n (pos q) (pos r) }
{
    if q < r {
        return two_of(n, q, r);
    }
    if r < q {
        return two_of(n, r, q);
    }
    one_of(n, q)
}

// Whether q is one of them.
pub fn has_successor(s: Successors, q: usize) -> bool
    ensures { result ≡ member q (list_of s) }
{
    match s {
        Successors::Invalid | Successors::Stop => false,
        Successors::One(a) => a == q,
        Successors::Two(a, b) => a == q || b == q,
    }
}
