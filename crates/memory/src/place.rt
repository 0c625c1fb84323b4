// The shapes of the places where a variable's nodes stand.
ghost use Rattle.std.specs.Prelude.{◌≡◌, ◌<◌, ◌≤◌, length};
ghost use Rattle.definition.specs.Layout as Layout;
ghost use Rattle.memory.specs.Trees.{TreeIn, Laid};

use definition::layout::VARIABLES;
use driver::tables::KNOWN_WORDS;
use memory_layout::layout::lay_out;
use places::field::variable_place;
use records::file::File;
use shapes::classes::shape_classes;

// A variable that has a tree has a place.
#[tactic(auto, using(crate::proofs::Placing::placing))]
pub fn lay_variable(file: &File<'_>, v: u32, room: &[u32], nodes: usize, shapes: &mut [u32])
    requires { (v < Layout.count file.now.source Layout.variables) × TreeIn file.now.source v room.now nodes × (12288 ≤ length shapes.old) }
    ensures { Laid file.now.source v room.now shapes.new nodes }
{
    let mut classes = [0u32; KNOWN_WORDS];
    shape_classes(file, &mut classes);
    let i = file.source.word(VARIABLES, v, 3);
    if let Some(place) = variable_place(&file.source, v, i) {
        lay_out(file, &classes, room, place, shapes);
    }
}
