// Values without parts that an initializer states.
#![tactic(auto, using(crate::proofs::values::Laws::laws))]

ghost use Rattle.std.specs.Prelude.{◌≡◌, eqb};
ghost use Rattle.definition.specs.Base.{pick};
ghost use Rattle.definition.specs.Layout as Layout;
ghost use Rattle.definition.specs.Layout.{entries, expressions};
ghost use Rattle.definition.specs.Tree.{null_tree, reference_tree};
ghost use Rattle.definition.specs.Scalar.{as_tree, enumerated_value};
ghost use Rattle.definition.specs.Ask.{ok, result_of};
ghost use Rattle.places.specs.Inside.{ShapeIn};

use build::known::Known;
use definition::layout::ENTRIES;
use definition::records::{Constant, Expression, Shape};
use records::source::Source;
use scalar::node;

// The enumerated value of an entry.
pub fn enumerated_entry(known: &Known<'_>, shape: Shape, e: u32) -> Option<Constant>
    requires { ShapeIn known.now.file shape }
    ensures { as_tree (result_of result) ≡ enumerated_value known.now.file shape (Layout.word known.now.file entries e 2) (Layout.word known.now.file entries e 3) }
{
    let value = known.word(ENTRIES, e, 2);
    let qualifier = known.word(ENTRIES, e, 3);
    known.enumerated_value(shape, value, qualifier)
}

// Null, or the variable that is referred to.
pub fn reference_value(file: &Source<'_>, x: u32) -> Option<Constant>
    ensures { as_tree (result_of result) ≡ ok (pick (eqb (Layout.word file.now expressions x 0) 4) null_tree (reference_tree x)) }
{
    match file.expression(x) {
        Expression::Null => Some(node::null()),
        _ => Some(node::reference(x)),
    }
}

// The same, of the file that is known.
pub fn reference_leaf(known: &Known<'_>, x: u32) -> Option<Constant>
    ensures { as_tree (result_of result) ≡ ok (pick (eqb (Layout.word known.now.file expressions x 0) 4) null_tree (reference_tree x)) }
{
    reference_value(&known.file().source, x)
}
