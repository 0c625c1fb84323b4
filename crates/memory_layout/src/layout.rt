// The shapes of the places of a tree's nodes, in the order of the nodes.
#![tactic(auto, using(crate::proofs::Laying::laws))]

ghost use Rattle.std.specs.Prelude.{◌≡◌, length};
ghost use Rattle.shapes.specs.Classes.{Classes};
ghost use Rattle.places.specs.Inside.{PlaceIn};
ghost use Rattle.memory_layout.specs.Parts.{Given, Located};
ghost use Rattle.memory_layout.specs.Laid.{Whole, LaidTree, Laid};

use crate::parts::{entries_place, place_at};
use crate::words::put_node;
use definition::layout::NODE_WORDS;
use definition::records::Place;
use records::file::File;

// The shapes of the tree at a place of the words, beside it; where it ends. Its parts follow its node.
fn lay_tree(
    file: &File<'_>,
    classes: &[u32],
    tree: &[u32],
    at: usize,
    place: Place,
    shapes: &mut [u32],
) -> usize
    requires { Given file.now.source classes.now × Located file.now.source place × Whole tree.now at (length shapes.old) }
    ensures { LaidTree file.now.source tree.now at place shapes.old result shapes.new }
{
    let shape = place.shape;
    let parts = put_node(tree, at, shape, shapes);
    let entry = entries_place(file, classes, place);
    let mut to = at + NODE_WORDS;
    for k in 0..parts {
        let part = place_at(file, classes, place, entry, k, tree, to);
        to = lay_tree(file, classes, tree, to, part, shapes);
    }
    to
}

// Beside the whole tree at the front of the words: at each node's place six words of the shape of the place where it stands.
pub fn lay_out(file: &File<'_>, classes: &[u32], tree: &[u32], place: Place, shapes: &mut [u32])
    requires { Classes file.now.source classes.now × PlaceIn file.now.source place × Whole tree.now 0 (length shapes.old) }
    ensures laid { Laid file.now.source tree.now place shapes.new }
    ensures long { length shapes.new ≡ length shapes.old }
{
    lay_tree(file, classes, tree, 0, place, shapes);
}
