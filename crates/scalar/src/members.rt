// Enumerated values: one of the members by its name, with its qualifier kept (`from_enumerated_value` of scalar.rs).
#![tactic(auto, using(crate::proofs::members::Laws::laws))]

ghost use Rattle.std.specs.Prelude.{◌≡◌};
ghost use Rattle.definition.specs.Scalar.{as_tree};
ghost use Rattle.definition.specs.Ask.{result_of};
ghost use Rattle.scalar.specs.Members.{enumerated_by};

use crate::node::enumerated;
use definition::records::Constant;

pub fn from_enumerated_value(members: &[u32], value: u32, qualifier: u32) -> Option<Constant>
    ensures { as_tree (result_of result) ≡ enumerated_by members.now value qualifier }
{
    members
        .contains(&value)
        .then_some(enumerated(value, qualifier))
}
