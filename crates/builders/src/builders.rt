// What an arm of lifter.rs says.
ghost use Rattle.std.specs.Prelude.{◌≡◌};
ghost use Rattle.builders.specs.Shapes.{body_of, plain_of};

use values::ir::{ImplicitEffect, Operands, Reads, Writes};

// The lists stand in the order in which lifter.rs pushes them. Fallback, companion and confidence are worked
// out for all arms alike.
#[derive(Clone, Copy)]
pub struct Body {
    pub operands: Operands,
    pub reads: Reads,
    pub writes: Writes,
    pub implicit_effect: Option<ImplicitEffect>,
    pub jump_target: Option<usize>,
}

impl Body {
    pub fn new(
        operands: Operands,
        reads: Reads,
        writes: Writes,
        implicit_effect: Option<ImplicitEffect>,
        jump_target: Option<usize>,
    ) -> Body
        ensures { result ≡ body_of operands reads writes implicit_effect jump_target }
    {
        Body {
            operands,
            reads,
            writes,
            implicit_effect,
            jump_target,
        }
    }

    // What most arms say: no implicit effect and no jump target.
    pub fn plain(operands: Operands, reads: Reads, writes: Writes) -> Body
        ensures { result ≡ plain_of operands reads writes }
    {
        Body::new(operands, reads, writes, None, None)
    }
}
