// What stands in the room is copied, repeated, or takes the place of something else. Nothing here calls back.
#![tactic(auto, using(crate::proofs::Arrays::laws))]

ghost use Rattle.std.specs.Prelude.{◌≡◌, ◌-◌, ◌≤◌, Ok};
ghost use Rattle.shapes.specs.Classes.{Classes};
ghost use Rattle.places.specs.Inside.{PlaceIn};
ghost use Rattle.gather.specs.Copies.{CopiesWords, PushesWords, CopiesFields, CopiesStructure, CopiesDefault, CopiesList, NextDefault, EachDefault, PushesDefaults, FillsOver, PutsHead, Finds, PutsMember};

use crate::answers::{Filling, Listed};
use crate::leaves::nodes_between;
use build::built::Unbuilt;
use build::known::Known;
use definition::layout::{ENTRIES, NODE_WORDS};
use definition::records::Place;
use places::field::field_place;
use records::file::File;
use tree::extent::{Span, after};
use tree::node::{write_array, write_structure};
use tree::part::{Value, find, value_at};
use tree::words::{fits, shift};
use tree_changes::grow::{assign, repeat, replace};
use tree_changes::limit::{may_add, may_copy, may_gather};

// Copies the words between two places.
#[tactic(auto, using(crate::proofs::Copying::laws))]
fn copy_words(room: &mut [u32], from: usize, to: usize, at: usize) -> Option<usize>
    ensures { CopiesWords from to room.old at result room.new }
{
    if to < from {
        return None;
    }
    shift(room, from, to - from, at)
}

// A structure's fields, copied under a head of their own.
#[tactic(auto, using(crate::proofs::Copying::laws))]
fn copy_fields(
    room: &mut [u32],
    begin: usize,
    end: usize,
    at: usize,
    count: u32,
) -> Result<usize, Unbuilt>
    ensures { CopiesFields begin end count room.old at result room.new }
{
    let to = copy_words(room, begin, end, at).ok_or(Unbuilt::None)?;
    write_structure(room, at, count).ok_or(Unbuilt::None)?;
    Ok(to)
}

// A structure is taken apart or the answer is none.
#[tactic(auto, using(crate::proofs::Copying::laws))]
pub fn copy_structure(
    room: &mut [u32],
    begin: usize,
    end: usize,
    at: usize,
) -> Result<usize, Unbuilt>
    ensures { CopiesStructure begin end room.old at result room.new }
{
    let value = value_at(&room[..], begin).ok_or(Unbuilt::None)?;
    let Value::Structure(count) = value else {
        return Err(Unbuilt::None);
    };
    copy_fields(room, begin, end, at, count)
}

// The same of the next place's default.
#[tactic(auto, using(crate::proofs::Copying::laws))]
pub fn copy_default(l: Filling, room: &mut [u32], at: usize) -> Result<usize, Unbuilt>
    ensures { CopiesDefault l room.old at result room.new }
{
    let end = l.default_end(&room[..]).ok_or(Unbuilt::None)?;
    copy_structure(room, l.from, end, at)
}

// Values at a place, so many times one behind the other.
#[tactic(auto, using(crate::proofs::Copying::lists))]
pub fn push_copies(
    values: Listed,
    times: usize,
    l: Filling,
    room: &mut [u32],
    at: usize,
) -> Result<Listed, Unbuilt>
    ensures { CopiesList values.made values.size times l room.old at result room.new }
{
    may_copy(times, l.places, l.made, l.size, values.made, values.size)?;
    let end = repeat(room, at, values.size, times)?;
    Ok(Listed {
        end,
        made: l.made + times * values.made,
        size: l.size + times * values.size,
    })
}

// A tree between two places becomes the next value of an array, where it may be added.
#[tactic(auto, using(crate::proofs::Copying::pushes))]
fn push_words(
    begin: usize,
    end: usize,
    l: Filling,
    room: &mut [u32],
    at: usize,
) -> Result<Listed, Unbuilt>
    ensures { PushesWords begin end l room.old at result room.new }
{
    let nodes = nodes_between(begin, end);
    may_add(l.places, l.made, l.size, 1, nodes)?;
    let to = copy_words(room, begin, end, at).ok_or(Unbuilt::None)?;
    Ok(Listed {
        end: to,
        made: l.made + 1,
        size: l.size + nodes,
    })
}

// n() takes each place's own default.
#[tactic(auto, using(crate::proofs::Copying::laws))]
fn next_default(l: Filling, room: &mut [u32], at: usize) -> Result<Listed, Unbuilt>
    ensures { NextDefault l room.old at result room.new }
{
    let end = l.default_end(&room[..]).ok_or(Unbuilt::None)?;
    push_words(l.from, end, l, room, at)
}

#[tactic(auto, using(crate::proofs::Gathering::laws))]
fn each_default(times: usize, l: Filling, room: &mut [u32], at: usize) -> Result<Listed, Unbuilt>
    ensures { EachDefault times l room.old at result room.new }
{
    let mut now = l;
    let mut to = at;
    for _ in 0..times {
        let next = next_default(now, room, to)?;
        now = now.moved_on(&room[..], next);
        to = next.end;
    }
    Ok(Listed {
        end: to,
        made: now.made,
        size: now.size,
    })
}

#[tactic(auto, using(crate::proofs::Gathering::laws))]
pub fn push_defaults(
    times: usize,
    l: Filling,
    room: &mut [u32],
    at: usize,
) -> Result<Listed, Unbuilt>
    ensures { PushesDefaults times l room.old at result room.new }
{
    if times <= l.places {
        each_default(times, l, room, at)
    } else {
        Err(Unbuilt::None)
    }
}

// The leading defaults, which stand at the front, give way to values behind them.
pub fn fill_rest(
    values: Listed,
    end: usize,
    places: usize,
    room: &mut [u32],
) -> Result<Listed, Unbuilt>
    ensures { FillsOver end values.end values.made places room.old result room.new }
{
    let part = after(&room[..], 0, values.made).ok_or(Unbuilt::None)?;
    let front = Span {
        begin: 0,
        end: part,
    };
    let fresh = Span {
        begin: end,
        end: values.end,
    };
    let to = replace(room, Span { begin: 0, end }, front, fresh)?;
    let size = to / NODE_WORDS;
    if !may_gather(0, size) {
        return Err(Unbuilt::TooLarge);
    }
    Ok(Listed {
        end: to,
        made: places,
        size,
    })
}

// An array's head over values that stand behind it, in the part that begins at `from`.
pub fn array_head(
    values: Listed,
    at: usize,
    from: usize,
    room: &mut [u32],
) -> Result<usize, Unbuilt>
    ensures { PutsHead values.end values.made at from room.old result room.new }
{
    if !fits(room.len(), from, values.end) {
        return Err(Unbuilt::None);
    }
    write_array(room, at, values.made.min(2047) as u32).ok_or(Unbuilt::None)?;
    Ok(from + values.end)
}

// A field in a structure: where it stands, its name and its place.
#[derive(Clone, Copy)]
pub struct Target {
    pub begin: usize,
    pub end: usize,
    pub name: u32,
    pub place: Place,
}

// The field of an entry's name in the structure at a place.
#[tactic(auto, using(crate::proofs::Members::laws))]
pub fn named_field(
    file: &File<'_>,
    classes: &[u32],
    e: u32,
    place: Place,
    room: &[u32],
    at: usize,
) -> Option<Target>
    requires { Classes file.now.source classes.now × PlaceIn file.now.source place }
    ensures { Finds file.now.source place e room.now at result }
{
    let name = file.source.word(ENTRIES, e, 1);
    let span = find(room, at, name)?;
    let inner = field_place(file, classes, place, name)?;
    Some(Target {
        begin: span.begin,
        end: span.end,
        name,
        place: inner,
    })
}

// The same, of what is known.
pub fn find_field(
    known: &Known<'_>,
    e: u32,
    place: Place,
    room: &[u32],
    at: usize,
) -> Option<Target>
    requires { PlaceIn known.now.file place }
    ensures { Finds known.now.file place e room.now at result }
{
    named_field(known.file(), known.classes(), e, place, room, at)
}

// A member's new value, which stands behind the structure up to `to`, takes the field's place there.
#[tactic(auto, using(crate::proofs::Members::laws))]
pub fn put_member(
    field: Target,
    at: usize,
    end: usize,
    to: usize,
    room: &mut [u32],
) -> Result<usize, Unbuilt>
    ensures { PutsMember (Ok to) at end field.begin field.end field.name room.old result room.new }
{
    let part = Span {
        begin: field.begin,
        end: field.end,
    };
    let fresh = Span {
        begin: end,
        end: to,
    };
    let after = assign(room, Span { begin: at, end }, part, fresh, field.name)?;
    Ok(after)
}
