// What an expression gives a place: the constant that it is, or itself, to be evaluated later (`expression`).
#![tactic(auto, using(crate::proofs::expressions::Laws::laws))]

ghost use Rattle.std.specs.Prelude.{◌≡◌, ◌<◌};
ghost use Rattle.definition.specs.Ask as Ask;
ghost use Rattle.definition.specs.Base.{pick};
ghost use Rattle.definition.specs.Layout as Layout;
ghost use Rattle.definition.specs.Layout.{entries, expressions};
ghost use Rattle.definition.specs.Shapes.{is_reference};
ghost use Rattle.definition.specs.Tree.{null_tree, expression_tree};
ghost use Rattle.definition.specs.Syntax as Syntax;
ghost use Rattle.definition.specs.Syntax.{expr_at};
ghost use Rattle.definition.specs.Scalar.{as_tree, enumerated_value, expression_value};
ghost use Rattle.definition.specs.Ask.{result_of};
ghost use Rattle.places.specs.Inside.{ShapeIn};

use crate::values::{constant_value, enumerated_value};
use definition::layout::ENTRIES;
use definition::records::{Constant, Expression, Shape};
use records::file::File;
use scalar::node;

// An expression that stays itself, to be evaluated later.
fn later(x: u32) -> Option<Constant>
    ensures { as_tree (result_of result) ≡ Ask.ok (expression_tree x) }
{
    Some(node::expression(x))
}

// The enumerated value of an entry.
pub fn enumerated_entry(file: &File<'_>, shape: Shape, e: u32) -> Option<Constant>
    requires { ShapeIn file.now.source shape }
    ensures { as_tree (result_of result) ≡ enumerated_value file.now.source shape (Layout.word file.now.source entries e 2) (Layout.word file.now.source entries e 3) }
{
    let value = file.source.word(ENTRIES, e, 2);
    let qualifier = file.source.word(ENTRIES, e, 3);
    enumerated_value(file, shape, value, qualifier)
}

// NULL is a reference's, and stays an expression elsewhere.
fn null_value(shape: Shape, x: u32) -> Option<Constant>
    ensures { as_tree (result_of result) ≡ Ask.ok (pick (is_reference shape) null_tree (expression_tree x)) }
{
    match shape {
        Shape::Reference { target: _ } => Some(node::null()),
        _ => later(x),
    }
}

// A conversion is gone through only directly over a constant or an enumerated value.
fn conversion(file: &File<'_>, shape: Shape, x: u32, inner: u32) -> Option<Constant>
    requires { ShapeIn file.now.source shape × (inner < Layout.count file.now.source expressions) }
    ensures { as_tree (result_of result) ≡ expression_value file.now.source shape (Syntax.Expr.conversion x (expr_at file.now.source inner)) }
{
    let e = file.source.expression(inner);
    match e {
        Expression::Constant { number } => constant_value(file, shape, number),
        Expression::Enumerated { entry } => enumerated_entry(file, shape, entry),
        _ => later(x),
    }
}

// The constant that an expression is, or itself. Parentheses are gone through always.
pub fn expression(file: &File<'_>, shape: Shape, x: u32) -> Option<Constant>
    requires { ShapeIn file.now.source shape × (x < Layout.count file.now.source expressions) }
    ensures { as_tree (result_of result) ≡ expression_value file.now.source shape (expr_at file.now.source x) }
{
    let e = file.source.expression(x);
    match e {
        Expression::Constant { number } => constant_value(file, shape, number),
        Expression::Enumerated { entry } => enumerated_entry(file, shape, entry),
        Expression::Parentheses { inner } => expression(file, shape, inner),
        Expression::Conversion { inner } => conversion(file, shape, x, inner),
        Expression::Null => null_value(shape, x),
        _ => later(x),
    }
}
