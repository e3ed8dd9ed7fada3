// The C interface: the answer as a struct of numbers.
ghost use Rattle.std.specs.Prelude.{◌≡◌, length};
ghost use Rattle.assignment.specs.Answers.{assignment_of, marks_assigned};
ghost use Rattle.common.specs.Flat.{flat_result};

use assignment::definite_assignment;
use common::c::FlatAnswer;

#[unsafe(no_mangle)]
pub extern "C" fn lawendeb_definite_assignment(
    words: &[u32],
    parameters: u8,
    marks: &mut [u8],
) -> FlatAnswer
    ensures value { result ≡ flat_result (assignment_of words.now parameters (length marks.old)) }
    ensures marks_after { marks.new
        ≡ marks_assigned words.now parameters marks.old }
{
    definite_assignment(words, parameters, marks).into()
}
