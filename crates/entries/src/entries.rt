// Entries: what they append to an array, and what they make of members. Each function calls back into the others; entries point only to entries that nest less
// deep, and that is what falls.
#![tactic(auto, using(crate::proofs::Building::answering))]

ghost use Rattle.std.specs.Prelude.{◌≡◌, ◌+◌, ◌-◌, ◌*◌, ◌≤◌, ◌<◌};
ghost use Rattle.definition.specs.Base.{on_link};
ghost use Rattle.definition.specs.Depth.{entry_depth};
ghost use Rattle.definition.specs.Layout as Layout;
ghost use Rattle.definition.specs.Layout.{entries};
ghost use Rattle.places.specs.Inside.{PlaceIn};
ghost use Rattle.gather.specs.Room.{RoomThere, shapes_deep, rooms};
ghost use Rattle.entries.specs.Entries.{run_depth, EntryLink, DefaultsThere, RunThere, ValuesThere, FieldsThere, ValueThere, Expands, Repeats, RepeatsEntry, ExpandsStructure, ExpandsAll, BuildsArray, FillsArray, FillsValues, Applies, SetsMember, BuildsMember, BuildsStructure};

use build::built::Unbuilt;
use build::known::Known;
use build::leaves::put_leaf;
use definition::records::{Entry, Place};
use gather::answers::{Filling, Listed};
use gather::copies::{
    array_head, copy_default, copy_structure, fill_rest, find_field, push_copies, push_defaults,
    put_member,
};
use gather::defaults::element_defaults;
use gather::leaves::{push_leaf, push_tree, simple};
use tree::node::write_array;

// The values that an entry appends to an array's, for places like `leaf`, where the array's defaults stand in the room.
#[cycle(entries_of_places)]
#[tactic(auto, using(crate::proofs::Entering::expanding))]
pub fn expand(
    known: &Known<'_>,
    e: u32,
    leaf: Place,
    l: Filling,
    room: &mut [u32],
    at: usize,
) -> Result<Listed, Unbuilt>
    requires { PlaceIn known.now.file leaf × (e < Layout.count known.now.file entries) × DefaultsThere room.old l at (rooms known.now.file (entry_depth known.now.file e - 1)) }
    ensures { Expands known.now.file known.now.index known.now.store e leaf l room.old at result room.new }
{
    let entry = known.entry(e);
    match entry {
        Entry::Structure { first, count } => {
            push_structure(known, first, count, leaf, l, room, at)
        }
        Entry::Repeat { count, inner } => push_repeat(known, count, inner, leaf, l, room, at),
        _ => push_leaf(simple(known, leaf.shape, e), l, room, at),
    }
}

// n(..) repeats an entry; n() takes each place's own default.
#[cycle(entries_of_places)]
#[tactic(auto, using(crate::proofs::Entering::expanding))]
pub fn push_repeat(
    known: &Known<'_>,
    times: u32,
    link: u32,
    leaf: Place,
    l: Filling,
    room: &mut [u32],
    at: usize,
) -> Result<Listed, Unbuilt>
    requires { PlaceIn known.now.file leaf × EntryLink known.now.file link × DefaultsThere room.old l at (rooms known.now.file (on_link link 0 (entry_depth known.now.file))) }
    ensures { Repeats known.now.file known.now.index known.now.store times link leaf l room.old at result room.new }
{
    match link.checked_sub(1) {
        Some(e) => repeat_entry(known, times, e, leaf, l, room, at),
        None => push_defaults(times as usize, l, room, at),
    }
}

// The entry is expanded once, and copied.
#[cycle(entries_of_places)]
#[tactic(auto, using(crate::proofs::Entering::expanding))]
pub fn repeat_entry(
    known: &Known<'_>,
    times: u32,
    e: u32,
    leaf: Place,
    l: Filling,
    room: &mut [u32],
    at: usize,
) -> Result<Listed, Unbuilt>
    requires { PlaceIn known.now.file leaf × (e < Layout.count known.now.file entries) × DefaultsThere room.old l at (rooms known.now.file (entry_depth known.now.file e)) }
    ensures { RepeatsEntry known.now.file known.now.index known.now.store times e leaf l room.old at result room.new }
{
    if l.places < times as usize {
        return Err(Unbuilt::None);
    }
    let values = expand(known, e, leaf, l.remaining(), room, at)?;
    push_copies(values, times as usize, l, room, at)
}

// Members over the default of the next place.
#[cycle(entries_of_places)]
pub fn push_structure(
    known: &Known<'_>,
    first: u32,
    count: u32,
    leaf: Place,
    l: Filling,
    room: &mut [u32],
    at: usize,
) -> Result<Listed, Unbuilt>
    requires { PlaceIn known.now.file leaf × (first + count ≤ Layout.count known.now.file entries) × DefaultsThere room.old l at (rooms known.now.file (run_depth known.now.file first count)) }
    ensures { ExpandsStructure known.now.file known.now.index known.now.store first count leaf l room.old at result room.new }
{
    let end = copy_default(l, room, at)?;
    let to = apply_members(known, first, count, leaf, room, at, end)?;
    push_tree(to, l, at)
}

// A run of entries, one behind the other.
#[cycle(entries_of_places)]
pub fn expand_all(
    known: &Known<'_>,
    first: u32,
    count: u32,
    leaf: Place,
    l: Filling,
    room: &mut [u32],
    at: usize,
) -> Result<Listed, Unbuilt>
    requires { PlaceIn known.now.file leaf × (first + count ≤ Layout.count known.now.file entries) × RunThere known.now.file first count room.old l at }
    ensures { ExpandsAll known.now.file known.now.index known.now.store first count leaf l room.old at result room.new }
{
    known.ready();
    let mut now = l;
    let mut to = at;
    for e in first..first + count {
        let next = expand(known, e, leaf, now, room, to)?;
        now = now.moved_on(&room[..], next);
        to = next.end;
    }
    Ok(Listed {
        end: to,
        made: now.made,
        size: now.size,
    })
}

// An array of a run of entries: its head, then the rest of the room is lent to be filled with them.
#[cycle(entries_of_places)]
pub fn array(
    known: &Known<'_>,
    place: Place,
    first: u32,
    count: u32,
    room: &mut [u32],
    at: usize,
) -> Result<usize, Unbuilt>
    requires { PlaceIn known.now.file place × (first + count ≤ Layout.count known.now.file entries) × RoomThere room.old at (rooms known.now.file (run_depth known.now.file first count)) }
    ensures { BuildsArray known.now.file known.now.index known.now.store place first count room.old at result room.new }
{
    let from = write_array(room, at, 0).ok_or(Unbuilt::None)?;
    let values = fill(known, place, first, count, &mut room[from..])?;
    array_head(values, at, from, room)
}

// Its element defaults, and the values of the entries over them.
#[cycle(entries_of_places)]
pub fn fill(
    known: &Known<'_>,
    place: Place,
    first: u32,
    count: u32,
    room: &mut [u32],
) -> Result<Listed, Unbuilt>
    requires { PlaceIn known.now.file place × (first + count ≤ Layout.count known.now.file entries) × RoomThere room.old 0 (12282 + 24576 * (run_depth known.now.file first count + shapes_deep known.now.file)) }
    ensures { FillsArray known.now.file known.now.index known.now.store place first count room.old result room.new }
{
    known.ready();
    let defaults = element_defaults(known, place, room, 0)?;
    fill_values(
        known,
        place,
        first,
        count,
        defaults.made,
        room,
        defaults.end,
    )
}

// The values stand behind the defaults, and take the place of the leading ones.
#[cycle(entries_of_places)]
pub fn fill_values(
    known: &Known<'_>,
    place: Place,
    first: u32,
    count: u32,
    places: usize,
    room: &mut [u32],
    end: usize,
) -> Result<Listed, Unbuilt>
    requires { PlaceIn known.now.file place × (first + count ≤ Layout.count known.now.file entries) × ValuesThere known.now.file first count places room.old end }
    ensures { FillsValues known.now.file known.now.index known.now.store place first count places room.old end result room.new }
{
    let leaf = known.leaf_place(place);
    let l = Filling {
        from: 0,
        places,
        made: 0,
        size: 0,
    };
    let values = expand_all(known, first, count, leaf, l, room, end)?;
    fill_rest(values, end, places, room)
}

// A member list over the structure that stands in the room (`members`).
#[cycle(entries_of_places)]
pub fn apply_members(
    known: &Known<'_>,
    first: u32,
    count: u32,
    place: Place,
    room: &mut [u32],
    at: usize,
    end: usize,
) -> Result<usize, Unbuilt>
    requires { PlaceIn known.now.file place × (first + count ≤ Layout.count known.now.file entries) × FieldsThere room.old at end (rooms known.now.file (run_depth known.now.file first count)) }
    ensures { Applies known.now.file known.now.index known.now.store first count place room.old at end result room.new }
{
    known.ready();
    let mut upto = end;
    for e in first..first + count {
        upto = set_member(known, e, place, room, at, upto)?;
    }
    Ok(upto)
}

// One member of the list.
#[cycle(entries_of_places)]
pub fn set_member(
    known: &Known<'_>,
    e: u32,
    place: Place,
    room: &mut [u32],
    at: usize,
    end: usize,
) -> Result<usize, Unbuilt>
    requires { PlaceIn known.now.file place × (e < Layout.count known.now.file entries) × FieldsThere room.old at end (12288 + rooms known.now.file (entry_depth known.now.file e - 1)) }
    ensures { SetsMember known.now.file known.now.index known.now.store e place room.old at end result room.new }
{
    let field = find_field(known, e, place, &room[..], at).ok_or(Unbuilt::None)?;
    let to = member(known, e, field.place, field.begin, field.end, room, end)?;
    put_member(field, at, end, to, room)
}

// What an entry gives a member, whose value so far stands in the room.
#[cycle(entries_of_places)]
pub fn member(
    known: &Known<'_>,
    e: u32,
    place: Place,
    begin: usize,
    upto: usize,
    room: &mut [u32],
    at: usize,
) -> Result<usize, Unbuilt>
    requires { PlaceIn known.now.file place × (e < Layout.count known.now.file entries) × ValueThere room.old begin upto at (rooms known.now.file (entry_depth known.now.file e - 1)) }
    ensures { BuildsMember known.now.file known.now.index known.now.store e place begin upto room.old at result room.new }
{
    let entry = known.entry(e);
    match entry {
        Entry::Array { first, count } => array(known, place, first, count, room, at),
        Entry::Structure { first, count } => {
            member_structure(known, first, count, place, begin, upto, room, at)
        }
        _ => put_leaf(simple(known, place.shape, e), room, at),
    }
}

// Members over the value that a member has so far: a structure is taken apart or the answer is none.
#[cycle(entries_of_places)]
pub fn member_structure(
    known: &Known<'_>,
    first: u32,
    count: u32,
    place: Place,
    begin: usize,
    upto: usize,
    room: &mut [u32],
    at: usize,
) -> Result<usize, Unbuilt>
    requires { PlaceIn known.now.file place × (first + count ≤ Layout.count known.now.file entries) × ValueThere room.old begin upto at (rooms known.now.file (run_depth known.now.file first count)) }
    ensures { BuildsStructure known.now.file known.now.index known.now.store first count place begin upto room.old at result room.new }
{
    let end = copy_structure(room, begin, upto, at)?;
    apply_members(known, first, count, place, room, at, end)
}
