// A tree rewritten in place as it stands in an initializer's slot (`reference_expression`, `signed_integer`).
#![tactic(auto, using(crate::proofs::Rewriting::rewrites))]

ghost use Rattle.std.specs.Prelude.{◌≡◌, ◌+◌, ◌*◌, ◌≤◌, length, set};
ghost use Rattle.complete.specs.Rewrite.{rewrote, valued};

use definition::layout::NODE_WORDS;
use definition::records::Expression;
use records::source::Source;

fn write_null(room: &mut [u32], at: usize)
    requires { at + 6 ≤ length room.old }
    ensures { room.new ≡ set (set room.old (at + 1) 10) (at + 3) 0 }
{
    room[at + 1] = 10;
    room[at + 3] = 0;
}

// A node below the top: a reference is written as an expression, and an expression that is itself a null as a null.
#[tactic(auto, using(crate::proofs::Rewriting::nodes))]
fn write_node(file: &Source<'_>, room: &mut [u32], at: usize)
    requires { at + 6 ≤ length room.old }
    ensures { room.new ≡ rewrote file.now 1 room.old at }
{
    match room[at + 1] {
        11 => room[at + 1] = 12,
        12 => {
            if let Expression::Null = file.expression(room[at + 3]) {
                write_null(room, at);
            }
        }
        _ => {}
    }
}

// So many nodes from a place on.
fn write_nodes(file: &Source<'_>, room: &mut [u32], from: usize, nodes: usize)
    requires { from + 6 * nodes ≤ length room.old }
    ensures { room.new ≡ rewrote file.now nodes room.old from }
{
    for i in 0..nodes {
        write_node(file, room, from + i * NODE_WORDS);
    }
}

// The tree from a place up to another in the slot of an initializer of a kind: a subrange's holds an integer, and in every other the top stays.
pub fn write_value(file: &Source<'_>, kind: u32, room: &mut [u32], at: usize, end: usize)
    requires { (at + 6 ≤ end) × (end ≤ length room.old) }
    ensures { room.new ≡ valued file.now kind room.old at end }
{
    if kind == 2 {
        room[at + 1] = 1;
        return;
    }
    let from = at + NODE_WORDS;
    write_nodes(file, room, from, (end - from) / NODE_WORDS);
}
