// The outcome of a type or of a variable, after all declared types, in a store with room for every line.
ghost use Rattle.std.specs.Prelude.{◌≡◌, ◌≤◌, ◌<◌, length};
ghost use Rattle.definition.specs.Layout as Layout;
ghost use Rattle.definition.specs.Answers.{room_words};
ghost use Rattle.definition.specs.Tree.{flatten};
ghost use Rattle.build.specs.Built.{Builds, Ready};
ghost use Rattle.driver.specs.Driver.{Given, Prepared, Held};
ghost use Rattle.driver.specs.Told.{Ample, Tells, TellsOf, section_in, number_in, ask_in, outcome_in};

use crate::asked::resolve_declared;
use crate::driver::resolve;
use crate::work::{variable, wanted};
use build::built::{INDEX_AT, Unbuilt};
use build::known::Known;
use definition::layout::{TYPES, VARIABLES};
use lines::append::Lines;
use records::file::File;

// Whose outcome is asked for.
#[derive(Clone, Copy)]
pub enum Owner {
    Type(u32),
    Variable(u32),
}

impl Owner {
    pub fn section(self) -> usize
        ensures { result ≡ section_in self }
    {
        match self {
            Owner::Type(_) => TYPES,
            Owner::Variable(_) => VARIABLES,
        }
    }

    pub fn number(self) -> u32
        ensures { result ≡ number_in self }
    {
        match self {
            Owner::Type(t) => t,
            Owner::Variable(v) => v,
        }
    }
}

// The outcome from what is remembered, or the first type that is not.
fn build(
    file: &File<'_>,
    classes: &[u32],
    lines: &Lines<'_>,
    owner: Owner,
    room: &mut [u32],
) -> Result<usize, Unbuilt>
    requires { Ready file.now.source classes.now lines.now.index.now lines.now.store.now × (number_in owner < Layout.count file.now.source (section_in owner)) × (room_words file.now.source ≤ length room.old) }
    ensures { Builds file.now.source lines.now.index.now lines.now.store.now flatten (ask_in file.now.source owner) 0 room.old result room.new }
{
    let known = Known::new(file, classes, &lines.index[..], &lines.store[..]);
    match owner {
        Owner::Type(t) => known.type_default(t, room, 0),
        Owner::Variable(v) => variable(&known, v, room),
    }
}

// A type that is wanted is resolved first, and the work starts again.
fn tell(
    file: &File<'_>,
    classes: &[u32],
    lines: &mut Lines<'_>,
    owner: Owner,
    room: &mut [u32],
) -> Result<usize, Unbuilt>
    requires { Prepared file.now.source classes.now (length lines.old.index.now) (length room.old) × Held file.now.source lines.old.index.now lines.old.store.now lines.old.end × (number_in owner < Layout.count file.now.source (section_in owner)) × Ample file.now.source (length lines.old.store.now) }
    ensures { TellsOf file.now.source (ask_in file.now.source owner) lines.old.index.now lines.old.store.now lines.old.end result room.new }
{
    let built = build(file, classes, lines, owner, room);
    let Some(d) = wanted(built) else {
        return built;
    };
    resolve(file, classes, lines, d, room).ok_or(Unbuilt::None)?;
    tell(file, classes, lines, owner, room)
}

pub fn outcome(
    file: &File<'_>,
    known: &mut [u32],
    store: &mut [u32],
    owner: Owner,
    room: &mut [u32],
) -> Result<usize, Unbuilt>
    requires { Given file.now.source known.old (length room.old) × (number_in owner < Layout.count file.now.source (section_in owner)) × Ample file.now.source (length store.old) }
    ensures { Tells (outcome_in file.now.source owner) result room.new }
{
    let (classes, index) = known.split_at_mut(INDEX_AT);
    let mut lines = Lines {
        index,
        store,
        end: 0,
    };
    resolve_declared(file, &classes[..], &mut lines, room).ok_or(Unbuilt::None)?;
    tell(file, &classes[..], &mut lines, owner, room)
}
