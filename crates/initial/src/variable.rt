// What a variable starts with (`declaration`).
#![tactic(auto, using(crate::proofs::variable::Laws::laws), unfolding(crate::specs::Stated::variable_start, definition::specs::Defaults::declaration))]

ghost use Rattle.std.specs.Prelude.{◌≡◌, ◌||◌, ◌+◌, ◌*◌, ◌≤◌, ◌<◌, eqb, length};
ghost use Rattle.definition.specs.Layout as Layout;
ghost use Rattle.definition.specs.Layout.{variables};
ghost use Rattle.definition.specs.Starting as Defaults;
ghost use Rattle.definition.specs.Tree.{flatten, tree_words};
ghost use Rattle.build.specs.Built.{Builds};
ghost use Rattle.initial.specs.Stated.{variable_start};
ghost use Rattle.initial.specs.Rooms.{variable_levels};

use crate::start::initializer;
use build::built::Unbuilt;
use build::known::Known;
use definition::layout::VARIABLES;

// In-outs and externals start with nothing of their own.
fn is_outside(known: &Known<'_>, v: u32) -> bool
    ensures { result ≡ (eqb (Layout.word known.now.file variables v 1) 2 || eqb (Layout.word known.now.file variables v 1) 3) }
{
    matches!(known.word(VARIABLES, v, 1), 2 | 3)
}

// What a variable starts with.
pub fn declaration(known: &Known<'_>, v: u32, room: &mut [u32], at: usize) -> Result<usize, Unbuilt>
    requires { (v < Layout.count known.now.file variables) × (at + variable_levels known.now.file v * tree_words ≤ length room.old) }
    ensures { Builds known.now.file known.now.index known.now.store flatten (Defaults.declaration known.now.file v) at room.old result room.new }
{
    if is_outside(known, v) {
        return Err(Unbuilt::None);
    }
    let i = known.word(VARIABLES, v, 3);
    let place = known.variable_place(v, i).ok_or(Unbuilt::None)?;
    initializer(known, place, i, room, at)
}

// The same, where it has a name.
pub fn variable_start(
    known: &Known<'_>,
    v: u32,
    room: &mut [u32],
    at: usize,
) -> Result<usize, Unbuilt>
    requires { (v < Layout.count known.now.file variables) × (at + variable_levels known.now.file v * tree_words ≤ length room.old) }
    ensures { Builds known.now.file known.now.index known.now.store flatten (variable_start known.now.file v) at room.old result room.new }
{
    if known.word(VARIABLES, v, 0) == 0 {
        return Err(Unbuilt::None);
    }
    declaration(known, v, room, at)
}
