// The values that an element's default stands for, so many times under an array's head.
#![tactic(auto, using(crate::proofs::spread::Laws::laws))]

ghost use Rattle.std.specs.Prelude.{◌≡◌, ◌+◌, ◌*◌, ◌≤◌, ◌<◌, min, length};
ghost use Rattle.definition.specs.Accept.{elements_of};
ghost use Rattle.definition.specs.Tree.{tree_words};
ghost use Rattle.build.specs.Parts.{Spreads, WholeAt};
ghost use Rattle.build.specs.Spread.{Flattens};

use crate::built::Unbuilt;
use definition::layout::NODE_WORDS;
use records::source::Source;
use shapes::arrays::elements;
use tree::node::write_array;
use tree::part::{Value, value_at};
use tree::words::shift;
use tree_changes::grow::repeat;

// So many values, with so many nodes in all.
#[derive(Clone, Copy)]
pub struct Values {
    pub count: u32,
    pub nodes: usize,
}

// The tree at a place gives way to the values that it stands for: an array's entries, or itself.
pub fn flatten_values(room: &mut [u32], at: usize, end: usize) -> Values
    requires { WholeAt room.old at end }
    ensures { Flattens at end room.old result.count result.nodes room.new }
{
    let nodes = (end - at) / NODE_WORDS;
    let v = value_at(room, at);
    let Some(value) = v else {
        return Values { count: 1, nodes };
    };
    let Value::Array(count) = value else {
        return Values { count: 1, nodes };
    };
    shift(room, at + NODE_WORDS, (nodes - 1) * NODE_WORDS, at);
    Values {
        count,
        nodes: nodes - 1,
    }
}

// The tree behind a head's place, so many times.
fn spread_times(room: &mut [u32], at: usize, end: usize, times: usize) -> Result<usize, Unbuilt>
    requires { WholeAt room.old (at + 6) end × (at + tree_words ≤ length room.old) × (times ≤ 65537) }
    ensures { Spreads times at end room.old result room.new }
{
    let v = flatten_values(room, at + NODE_WORDS, end);
    let e = repeat(room, at + NODE_WORDS, v.nodes, times)?;
    write_array(room, at, v.count * (times as u32));
    Ok(e)
}

// The same for each element of an array of some dimensions.
pub fn spread(
    file: &Source<'_>,
    first: u32,
    many: u32,
    room: &mut [u32],
    at: usize,
    end: usize,
) -> Result<usize, Unbuilt>
    requires { WholeAt room.old (at + 6) end × (at + tree_words ≤ length room.old) }
    ensures { Spreads (elements_of file.now first many) at end room.old result room.new }
{
    let times = elements(file, first, many) as usize;
    spread_times(room, at, end, times)
}
