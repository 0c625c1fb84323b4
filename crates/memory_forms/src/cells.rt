// A tree's nodes, each with the shape of the place where it stands.
#![tactic(auto, using(crate::proofs::Celling::celling))]

ghost use Rattle.std.specs.Prelude.{◌≡◌, ◌*◌, ◌≤◌, length};
ghost use Rattle.std.specs.Iterator.{YieldsFirstBy, item_count};
ghost use Rattle.memory_definition.specs.Forms.{form_of};
ghost use Rattle.memory_laws.specs.InWords.{shape_in, cells_from};
ghost use Rattle.memory_forms.specs.Cell.{cell_of};
ghost use Rattle.memory_forms.specs.Cells.{left};

use crate::form::form_of;
use definition::layout::NODE_WORDS;
use definition::records::Shape;
use memory_definition::form::Form;
use records::source::Source;
use records::view::shape_of;
use tree::node::{Node, get};

#[derive(Clone, Copy)]
pub struct Cell {
    pub shape: Shape,
    pub node: Node,
}

impl Cell {
    // How the node stands in memory.
    #[tactic(auto, using(crate::proofs::Celling::celling), unfolding(memory_definition::specs::Forms::form_of))]
    pub fn form(self, file: &Source<'_>) -> Form
        ensures { result ≡ form_of file.now (cell_of self.shape self.node) }
    {
        form_of(file, self.shape, self.node.value.kind)
    }
}

// The nodes that are left: six words each in `tree`, and their shapes in six words each in `shapes`.
#[derive(Clone, Copy)]
pub struct Cells<'a> {
    tree: &'a [u32],
    shapes: &'a [u32],
}

impl<'a> Cells<'a> {
    // So many nodes at the front of the words.
    pub fn new(tree: &'a [u32], shapes: &'a [u32], nodes: usize) -> Cells<'a>
        requires { (nodes * 6 ≤ length tree.now) × (nodes * 6 ≤ length shapes.now) }
        ensures { left result ≡ cells_from tree.now shapes.now 0 nodes }
    {
        let end = nodes * NODE_WORDS;
        Cells {
            tree: &tree[..end],
            shapes: &shapes[..end],
        }
    }

    // How many are left.
    pub fn len(&self) -> usize
        ensures { result ≡ length (left self.now) }
    {
        self.tree.len().min(self.shapes.len()) / NODE_WORDS
    }
}

// The first five of a shape's six words are its record.
pub fn shape_in(words: &[u32; 6]) -> Shape
    ensures { result ≡ shape_in words.now 0 }
{
    let [kind, a, b, c, d, _] = *words;
    shape_of(kind, a, b, c, d)
}

impl<'a> Iterator for Cells<'a> {
    type Item = Cell;

    ghost next_gives = { YieldsFirstBy (λ cell. cell_of cell.shape cell.node) left };

    ghost remaining = { item_count left };

    fn next(&mut self) -> Option<Cell> {
        let (node, tree) = self.tree.split_first_chunk::<6>()?;
        let (shape, shapes) = self.shapes.split_first_chunk::<6>()?;
        self.tree = tree;
        self.shapes = shapes;
        Some(Cell {
            shape: shape_in(shape),
            node: get(node, 0),
        })
    }
}
