// Function blocks: the fields of the block record that alias bases lead to (`recorded_block`, `block_field`, `block_fields`).
#![tactic(auto, using(crate::proofs::block::Laws::laws))]

ghost use Rattle.std.specs.Prelude.{◌≡◌, ◌^◌, ◌<◌};
ghost use Rattle.definition.specs.Places.{has_block, recorded_block, block_field_type};
ghost use Rattle.laws.specs.Used.{IsType};
ghost use Rattle.places.specs.Found.{block_run, run_of_block};
ghost use Rattle.places.specs.Links.{link_of};

use crate::named::{first_named, led_to, linked};
use definition::layout::{BLOCK_FIELDS, INLINE, TYPES};
use definition::records::Place;
use records::file::File;
use records::source::Source;

// So many records of a section from one on.
#[derive(Clone, Copy)]
pub struct Run {
    pub first: u32,
    pub count: u32,
}

fn has_block(file: &Source<'_>, t: u32) -> bool
    ensures { result ≡ has_block file.now t }
{
    file.word(TYPES, t, 9) != INLINE
}

// The type with a block record that alias bases lead to from t; none in a circle without one.
#[tactic(auto, using(crate::proofs::block::Laws::following))]
pub fn recorded_block(file: &Source<'_>, t: u32) -> Option<u32>
    ensures { link_of result ≡ recorded_block file.now t }
{
    let many = file.count(TYPES);
    let mut at = t;
    for _ in 0..many {
        if has_block(file, at) {
            return Some(at);
        }
        at = linked(file, TYPES, at, 1)?;
    }
    None
}

// The fields of a type with a block record.
fn fields_of(file: &Source<'_>, block: u32) -> Run
    ensures { result ≡ run_of_block file.now block }
{
    Run {
        first: file.word(TYPES, block, 9),
        count: file.word(TYPES, block, 10),
    }
}

// The type of a block's field.
pub fn block_field_type(file: &File<'_>, t: u32, name: u32) -> Option<u32>
    requires { IsType file.now.source t }
    ensures is { link_of result ≡ block_field_type file.now.source t name }
    ensures near { link_of result < 2 ^ 32 }
{
    let block = recorded_block(&file.source, t)?;
    let run = fields_of(&file.source, block);
    let field = first_named(&file.source, BLOCK_FIELDS, name, run)?;
    linked(&file.source, BLOCK_FIELDS, field, 1)
}

// The run of a block's fields, in-outs among them, or none where no block record is found. The resolver walks it for their names.
pub fn block_run(file: &Source<'_>, place: Place) -> Option<Run>
    ensures { result ≡ block_run file.now place }
{
    let t = led_to(place.id)?;
    let block = recorded_block(file, t)?;
    Some(fields_of(file, block))
}
