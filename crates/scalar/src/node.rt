// A value without parts, and the node that it is (document 01, "Made by resolver.rs, read by value.rs"). Kinds 9 to 12 have a constant's words too.
ghost use Rattle.std.specs.Prelude.{◌≡◌};
ghost use Rattle.definition.specs.Records.{constant_of};
ghost use Rattle.definition.specs.Tree.{flatten, constant_tree, enumerated_tree, null_tree, reference_tree, expression_tree};

use definition::records::Constant;

// A node's six words. Its name is set where it becomes a field.
#[tactic(auto, unfolding(definition::specs::Tree::flatten, definition::specs::Tree::flatten_all, definition::specs::Tree::constant_tree, definition::specs::Tree::leaf))]
pub fn node(c: Constant) -> [u32; 6]
    ensures { result ≡ flatten (constant_tree c) }
{
    [0, c.kind, c.sign, c.low, c.high, c.width]
}

// A kind with the two words that it has, if no sign and no width belong to it.
#[tactic(auto, unfolding(definition::specs::Records::constant_of))]
pub fn of_kind(kind: u32, low: u32, high: u32) -> Constant
    ensures { result ≡ constant_of kind 0 low high 0 }
{
    Constant {
        kind,
        sign: 0,
        low,
        high,
        width: 0,
    }
}

#[tactic(auto, unfolding(definition::specs::Tree::enumerated_tree, definition::specs::Tree::constant_tree, definition::specs::Records::constant_of))]
pub fn enumerated(value: u32, qualifier: u32) -> Constant
    ensures { constant_tree result ≡ enumerated_tree value qualifier }
{
    of_kind(9, value, qualifier)
}

#[tactic(auto, unfolding(definition::specs::Tree::null_tree, definition::specs::Tree::constant_tree, definition::specs::Records::constant_of))]
pub fn null() -> Constant
    ensures { constant_tree result ≡ null_tree }
{
    of_kind(10, 0, 0)
}

// An expression's number, as a reference's and as one to be evaluated later.
#[tactic(auto, unfolding(definition::specs::Tree::reference_tree, definition::specs::Tree::constant_tree, definition::specs::Records::constant_of))]
pub fn reference(number: u32) -> Constant
    ensures { constant_tree result ≡ reference_tree number }
{
    of_kind(11, number, 0)
}

#[tactic(auto, unfolding(definition::specs::Tree::expression_tree, definition::specs::Tree::constant_tree, definition::specs::Records::constant_of))]
pub fn expression(number: u32) -> Constant
    ensures { constant_tree result ≡ expression_tree number }
{
    of_kind(12, number, 0)
}
