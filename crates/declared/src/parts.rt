// The parts of a structure's declaration and of a function block, under their head.
#![tactic(auto, using(crate::proofs::parts::Laws::laws), unfolding(initial::specs::Stated::element_start, initial::specs::Stated::part_start, initial::specs::Stated::is_part, initial::specs::Rooms::element_levels, initial::specs::Rooms::part_levels))]

ghost use Rattle.std.specs.Prelude.{ℕ, ◌≡◌, ◌+◌, ◌*◌, ◌≤◌, ◌<◌, length};
ghost use Rattle.definition.specs.Layout as Layout;
ghost use Rattle.definition.specs.Layout.{elements, variables};
ghost use Rattle.definition.specs.Parts.{structured};
ghost use Rattle.definition.specs.Tree.{flatten, tree_words};
ghost use Rattle.places.specs.Inside.{PlaceIn};
ghost use Rattle.build.specs.Built.{Builds};
ghost use Rattle.initial.specs.Stated.{part_start, is_part, parts_from, BuildsPart, PartIn, PartsIn};
ghost use Rattle.initial.specs.Rooms.{part_levels, parts_levels};

use build::built::Unbuilt;
use build::fields::{head_structure, name_field};
use build::known::Known;
use definition::layout::{ELEMENTS, NODE_WORDS, VARIABLES};
use definition::records::Place;
use initial::start::initializer;
use initial::variable::variable_start;

// What is listed under a head: the records of a section, the word 0 of which is a name.
pub trait Part {
    ghost SECTION: { ℕ };

    const SECTION: usize;

    // Whether a record is listed.
    fn is_part(known: &Known<'_>, k: u32) -> bool
        ensures { result ≡ is_part known.now.file SECTION k };

    // What it starts with.
    fn start(
        known: &Known<'_>,
        place: Place,
        k: u32,
        room: &mut [u32],
        at: usize,
    ) -> Result<usize, Unbuilt>
        requires { PlaceIn known.now.file place × PartIn known.now.file SECTION k × (at + part_levels known.now.file place SECTION k * tree_words ≤ length room.old) }
        ensures { Builds known.now.file known.now.index known.now.store flatten (part_start known.now.file place SECTION k) at room.old result room.new };
}

// The elements of a structure's declaration: all are listed.
pub struct Elements;

impl Part for Elements {
    ghost SECTION = { elements };

    const SECTION: usize = ELEMENTS;

    fn is_part(_known: &Known<'_>, _k: u32) -> bool {
        true
    }

    fn start(
        known: &Known<'_>,
        place: Place,
        k: u32,
        room: &mut [u32],
        at: usize,
    ) -> Result<usize, Unbuilt> {
        let name = known.word(ELEMENTS, k, 0);
        let inner = known.field_place(place, name).ok_or(Unbuilt::None)?;
        let i = known.word(ELEMENTS, k, 1);
        initializer(known, inner, i, room, at)
    }
}

// The variables of a function block: inputs, outputs and internal ones are listed.
pub struct Variables;

impl Part for Variables {
    ghost SECTION = { variables };

    const SECTION: usize = VARIABLES;

    fn is_part(known: &Known<'_>, k: u32) -> bool {
        matches!(known.word(VARIABLES, k, 1), 0 | 1 | 4)
    }

    fn start(
        known: &Known<'_>,
        _place: Place,
        k: u32,
        room: &mut [u32],
        at: usize,
    ) -> Result<usize, Unbuilt> {
        variable_start(known, k, room, at)
    }
}

// A part at `to`, under the head at `at`.
fn part_field<P: Part>(
    known: &Known<'_>,
    place: Place,
    k: u32,
    room: &mut [u32],
    at: usize,
    to: usize,
) -> Result<usize, Unbuilt>
    requires { PlaceIn known.now.file place × PartIn known.now.file P.SECTION k × (P.SECTION < 14) × (at ≤ to) × (to + part_levels known.now.file place P.SECTION k * tree_words ≤ length room.old) }
    ensures { BuildsPart known.now.file known.now.index known.now.store place P.SECTION k at to room.old result room.new }
{
    known.ready();
    let name = known.word(P::SECTION, k, 0);
    let end = P::start(known, place, k, room, to)?;
    name_field(room, at, to, end, name)
}

// All parts of a run, under their head.
pub fn parts<P: Part>(
    known: &Known<'_>,
    place: Place,
    first: u32,
    many: u32,
    room: &mut [u32],
    at: usize,
) -> Result<usize, Unbuilt>
    requires { PlaceIn known.now.file place × PartsIn known.now.file P.SECTION first many × (at + parts_levels known.now.file place P.SECTION first many * tree_words ≤ length room.old) }
    ensures { Builds known.now.file known.now.index known.now.store flatten (structured (parts_from known.now.file place P.SECTION first many)) at room.old result room.new }
{
    let mut made: u32 = 0;
    let mut to = at + NODE_WORDS;
    for k in first..first + many {
        if !P::is_part(known, k) {
            continue;
        }
        to = part_field::<P>(known, place, k, room, at, to)?;
        made += 1;
    }
    head_structure(room, at, made, to)
}
