// A constant of a file as the node that it gives a place of one of the file's shapes, for C.
#![tactic(auto, using(crate::proofs::Numbers::numbers))]

ghost use Rattle.std.specs.Prelude.{◌≡◌, length};
ghost use Rattle.definition.specs.Answers.{value_code};
ghost use Rattle.conversion.specs.Convert.{convert_answer, convert_out};

use codes::tree_code;
use conversion::convert::convert;

// 1 with the node's six words at the front of out, or 0 for none; a refusal in the high word. None and refusals leave out as it was.
pub fn wirkesu_convert(file: &[u32], shape: u32, constant: u32, out: &mut [u32]) -> u64
    ensures says { result ≡ value_code (convert_answer file.now shape constant (length out.old)) }
    ensures wrote { out.new ≡ convert_out file.now shape constant out.old }
{
    let answer = convert(file, shape, constant, out);
    tree_code(answer)
}
