// From a line that is there to the next, by its count alone.
#![tactic(auto, using(crate::proofs::Shapes::nexts))]

ghost use Rattle.std.specs.Prelude.{◌≡◌, ◌+◌, ◌-◌, ◌*◌, get_or, Some};
ghost use Rattle.sheet_lines.specs.Ends.{line_end};
ghost use Rattle.sheet_lines.specs.There.{LineThere, NodesThere};

use crate::ends::{Form, head_words};
use definition::layout::NODE_WORDS;
use records::words::word_at;

// Where the nodes behind a head end.
fn nodes_behind(sheet: &[u32], from: usize) -> usize
    requires { NodesThere sheet.now from }
    ensures { result ≡ from + get_or sheet.now (from - 1) 0 * 6 }
{
    let nodes = word_at(sheet, from - 1) as usize;
    from + nodes * NODE_WORDS
}

// Where a line ends that is there: only a state 0 has nodes.
pub fn next_line(sheet: &[u32], form: Form, at: usize) -> usize
    requires { LineThere form sheet.now at }
    ensures { line_end form sheet.now at ≡ Some result }
{
    let from = at + head_words(form);
    nodes_behind(sheet, from)
}
