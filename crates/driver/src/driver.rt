// A type resolved, and its line appended.
#![tactic(auto, using(crate::proofs::Settling::appending))]

ghost use Rattle.std.specs.Prelude.{◌≡◌, ◌≤◌, ◌<◌, length};
ghost use Rattle.definition.specs.Layout as Layout;
ghost use Rattle.definition.specs.Starting as Defaults;
ghost use Rattle.definition.specs.Answers.{room_words};
ghost use Rattle.definition.specs.Tree.{flatten};
ghost use Rattle.build.specs.Built.{Builds, Ready};
ghost use Rattle.lines.specs.Lines.{Lends, ends};
ghost use Rattle.driver.specs.Driver.{Stores, EndsIn, Settles, Resolves, Prepared, Begun, Fresh};

use crate::work::{wanted, work_out};
use build::built::Unbuilt;
use build::known::Known;
use lines::append::Lines;
use lines::look::Absent;
use records::file::File;

// What was built at the front of the room becomes a type's line.
fn remember(
    lines: &mut Lines<'_>,
    t: u32,
    built: Result<usize, Unbuilt>,
    room: &[u32],
) -> Option<()>
    requires { EndsIn built (length room.now) }
    ensures same { Lends lines.old lines.new }
    ensures stores { Stores built room.now lines.old.index.now lines.old.store.now lines.old.end t (ends result lines.new.end) lines.new.index.now lines.new.store.now }
{
    match built {
        Ok(end) => lines.remember_tree(t, &room[..end]),
        Err(unbuilt) => lines.remember_absent(t, Absent::from(unbuilt)),
    }
}

// The default of a type from what is remembered so far, or the first type that it wants.
fn try_type(
    file: &File<'_>,
    classes: &[u32],
    lines: &Lines<'_>,
    t: u32,
    room: &mut [u32],
) -> Result<usize, Unbuilt>
    requires { Ready file.now.source classes.now lines.now.index.now lines.now.store.now × (t < Layout.count file.now.source Layout.types) × (room_words file.now.source ≤ length room.old) }
    ensures { Builds file.now.source lines.now.index.now lines.now.store.now flatten (Defaults.body file.now.source t) 0 room.old result room.new }
{
    let known = Known::new(file, classes, &lines.index[..], &lines.store[..]);
    work_out(&known, t, room)
}

// A type in progress is worked out. A type that it wants is resolved first, and the work starts again.
fn settle(
    file: &File<'_>,
    classes: &[u32],
    lines: &mut Lines<'_>,
    t: u32,
    room: &mut [u32],
) -> Option<()>
    requires { Prepared file.now.source classes.now (length lines.old.index.now) (length room.old) × Begun file.now.source lines.old.index.now lines.old.store.now lines.old.end t }
    ensures same { Lends lines.old lines.new }
    ensures settles { Settles file.now.source t lines.old.index.now lines.old.store.now lines.old.end (ends result lines.new.end) lines.new.index.now lines.new.store.now }
{
    loop {
        let built = try_type(file, classes, lines, t, room);
        let Some(d) = wanted(built) else {
            return remember(lines, t, built, &room[..]);
        };
        lines.begin(d);
        settle(file, classes, lines, d, room)?;
    }
}

// An unknown type is worked out, and remembered.
#[tactic(auto, using(crate::proofs::Settling::settling))]
pub fn resolve(
    file: &File<'_>,
    classes: &[u32],
    lines: &mut Lines<'_>,
    t: u32,
    room: &mut [u32],
) -> Option<()>
    requires { Prepared file.now.source classes.now (length lines.old.index.now) (length room.old) × Fresh file.now.source lines.old.index.now lines.old.store.now lines.old.end t }
    ensures same { Lends lines.old lines.new }
    ensures resolves { Resolves file.now.source t lines.old.index.now lines.old.store.now lines.old.end (ends result lines.new.end) lines.new.index.now lines.new.store.now }
{
    lines.begin(t);
    settle(file, classes, lines, t, room)
}
