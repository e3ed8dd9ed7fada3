// What an operand stands for in a word.
ghost use Rattle.std.specs.Prelude.{◌≡◌, cond, eqb, ℕ, ◌+◌, ◌≤◌, ◌<◌};
ghost use Rattle.touches.specs.Isk.{«ISK», «INDEXK»};
ghost use Rattle.touches.specs.Operands.{location_of};
ghost use Rattle.touches.specs.Table.{operand_from};

use crate::arguments::Around;
use crate::operands::*;
use locations::location::Location;

// 5.3's bit that means constant.
const BITRK: u16 = 256;

// 5.3's RK(x): with that bit the constant of the other bits, else register x.
fn register_or_constant(x: u16) -> Location
    requires { x < 1024 }
    ensures { result ≡ cond (eqb («ISK» x) 0) (Location.Registers x (x + 1))
        (Location.Constant («INDEXK» x)) }
{
    if x / BITRK % 2 == 0 {
        Location::Registers(x, x + 1)
    } else {
        Location::Constant((x - BITRK) as u32)
    }
}

impl Around {
    #[tactic(auto, unfolding(crate::specs::Table::operand_from))]
    pub(crate) fn location_of(&self, operand: u64) -> Location
        ensures { result ≡ location_of (operand_from operand) self.now.raw self.now.before self.now.after }
    {
        let a = self.raw.a as u16;
        let b = self.raw.b;
        let c = self.raw.c;
        match operand {
            NOTHING => Location::Nothing,
            R_A => Location::Registers(a, a + 1),
            R_A_1 => Location::Registers(a + 1, a + 2),
            R_A_2 => Location::Registers(a + 2, a + 3),
            R_A_3 => Location::Registers(a + 3, a + 4),
            R_A_4 => Location::Registers(a + 4, a + 5),
            R_B => Location::Registers(b, b + 1),
            R_C => Location::Registers(c, c + 1),
            RK_C if self.raw.k == 0 => Location::Registers(c, c + 1),
            RK_C | K_C => Location::Constant(c as u32),
            R_A_BEFORE => Location::Registers(self.before as u16, self.before as u16 + 1),
            K_B => Location::Constant(b as u32),
            K_BX => Location::Constant(self.raw.bx),
            K_AX_AFTER => Location::Constant(self.after),
            UPVALUE_A => Location::Upvalue(a as u32),
            UPVALUE_B => Location::Upvalue(b as u32),
            _ => self.stretch_of(operand),
        }
    }

    // Several registers, those up to the stack top, and what 5.3 alone has.
    #[tactic(auto, unfolding(crate::specs::Table::operand_from))]
    fn stretch_of(&self, operand: u64) -> Location
        requires { 16 ≤ operand }
        ensures { result ≡ location_of (operand_from operand) self.now.raw self.now.before self.now.after }
    {
        let a = self.raw.a as u16;
        let b = self.raw.b;
        let c = self.raw.c;
        match operand {
            NILS => Location::Registers(a, a + b + 1),
            PIECES => Location::Registers(a, a + b),
            ARGUMENTS | ELEMENTS if b == 0 => Location::ToTop(a + 1),
            ARGUMENTS => Location::Registers(a + 1, a + b),
            ELEMENTS => Location::Registers(a + 1, a + b + 1),
            RETURNED if b == 0 => Location::ToTop(a),
            RETURNED => Location::Registers(a, a + b - 1),
            RESULTS if c == 0 => Location::ToTop(a),
            RESULTS => Location::Registers(a, a + c - 1),
            ITERATED => Location::Registers(a + 4, a + c + 4),
            RK_B_BIT => register_or_constant(b),
            RK_C_BIT => register_or_constant(c),
            CONCATENATED => Location::Registers(b, c + 1),
            // CALLED
            _ => Location::Registers(a + 3, a + c + 3),
        }
    }
}
