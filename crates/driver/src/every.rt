// Every type, for the sheet writer: its store may be too short.
#![tactic(auto, using(crate::proofs::Asking::of_each))]

ghost use Rattle.std.specs.Prelude.{length};
ghost use Rattle.build.specs.Built.{index_in};
ghost use Rattle.driver.specs.Tables.{Front};
ghost use Rattle.driver.specs.Driver.{Given, Prepared};
ghost use Rattle.driver.specs.Every.{ResolvesAll};

use crate::asked::resolve_each;
use build::built::INDEX_AT;
use lines::append::Lines;
use records::file::File;

// Where the lines end that are appended from the front of the store.
fn resolve_all(
    file: &File<'_>,
    classes: &[u32],
    index: &mut [u32],
    store: &mut [u32],
    room: &mut [u32],
) -> Option<usize>
    requires { Prepared file.now.source classes.now (length index.old) (length room.old) }
    ensures { ResolvesAll file.now.source result index.new store.new }
{
    let mut lines = Lines {
        index,
        store,
        end: 0,
    };
    resolve_each(file, classes, &mut lines, room, |_| true)?;
    Some(lines.end)
}

#[tactic(auto, using(crate::proofs::Tabling::tabling))]
pub fn resolve_types(
    file: &File<'_>,
    known: &mut [u32],
    store: &mut [u32],
    room: &mut [u32],
) -> Option<usize>
    requires { Given file.now.source known.old (length room.old) }
    ensures { Front known.old known.new × ResolvesAll file.now.source result (index_in known.new) store.new }
{
    let (classes, index) = known.split_at_mut(INDEX_AT);
    resolve_all(file, &classes[..], index, store, room)
}
