// The building functions at the top, at the front of a room that has the work words.
#![tactic(auto, using(crate::proofs::Working::laws))]

ghost use Rattle.std.specs.Prelude.{◌≡◌, ◌≤◌, ◌<◌, length};
ghost use Rattle.definition.specs.Starting as Defaults;
ghost use Rattle.definition.specs.Layout as Layout;
ghost use Rattle.definition.specs.Answers.{room_words};
ghost use Rattle.definition.specs.Tree.{flatten};
ghost use Rattle.build.specs.Built.{Builds};
ghost use Rattle.driver.specs.Driver.{wanted_in};

use build::built::Unbuilt;
use build::known::Known;
use declared::body::body;
use initial::variable::declaration;

// The default of a type, as its own declaration says it.
pub fn work_out(known: &Known<'_>, t: u32, room: &mut [u32]) -> Result<usize, Unbuilt>
    requires { (t < Layout.count known.now.file Layout.types) × (room_words known.now.file ≤ length room.old) }
    ensures { Builds known.now.file known.now.index known.now.store flatten (Defaults.body known.now.file t) 0 room.old result room.new }
{
    body(known, t, room, 0)
}

// The default of a variable.
pub fn variable(known: &Known<'_>, v: u32, room: &mut [u32]) -> Result<usize, Unbuilt>
    requires { (v < Layout.count known.now.file Layout.variables) × (room_words known.now.file ≤ length room.old) }
    ensures { Builds known.now.file known.now.index known.now.store flatten (Defaults.declaration known.now.file v) 0 room.old result room.new }
{
    declaration(known, v, room, 0)
}

// The type that is wanted, where one is.
pub fn wanted(built: Result<usize, Unbuilt>) -> Option<u32>
    ensures { result ≡ wanted_in built }
{
    match built {
        Ok(_) => None,
        Err(Unbuilt::None) => None,
        Err(Unbuilt::TooLarge) => None,
        Err(Unbuilt::Wanted(d)) => Some(d),
    }
}
