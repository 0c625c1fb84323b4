// A line compared word for word with what was built (refusal 13).
#![tactic(auto, using(crate::proofs::Comparing::lines))]

ghost use Rattle.std.specs.Prelude.{◌≡◌, ◌++◌};
ghost use Rattle.definition.specs.Sheet.{same_words};

// Whether the words of a line are those of a head, and behind them the nodes of what was built.
pub fn line_same(line: &[u32], head: &[u32], nodes: &[u32]) -> bool
    ensures { result ≡ same_words line.now (head.now ++ nodes.now) }
{
    let Some(behind) = line.strip_prefix(head) else {
        return false;
    };
    // The words are compared one by one: as many on both sides, and each the same.
    behind.len() == nodes.len() && behind.iter().zip(nodes).all(|(a, b)| a == b)
}
