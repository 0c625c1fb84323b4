// A record: its head, whose last word is the number of its nodes, and its nodes, each on its own line.
#![tactic(auto, using(crate::proofs::Series::records))]

ghost use Rattle.std.specs.Prelude.{length};
ghost use Rattle.text.specs.Forms.{record_form};

use crate::line::Line;
use crate::part::{Part, Places, put_times};
use definition::layout::NODE_WORDS;

const NODE: Line = Line {
    before: NODE_WORDS - 1,
};

// `place` is that of the number of nodes in the head.
#[derive(Clone, Copy)]
pub struct Record {
    pub place: usize,
}

impl Part for Record {
    ghost form = { λ r. record_form r.place };

    fn put(self, text: &mut [u8], at: Places, words: &[u32]) -> Places {
        let nodes = words[at.word + self.place];
        let head = Line { before: self.place };
        let behind = head.put(text, at, words);
        put_times(NODE, nodes, text, behind, words)
    }
}
