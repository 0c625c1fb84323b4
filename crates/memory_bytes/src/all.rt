// All nodes of a tree, one behind the other.
#![tactic(auto, using(crate::proofs::Writing::writing))]

ghost use Rattle.std.specs.Prelude.{◌≡◌, true, ◌≤◌, length};
ghost use Rattle.laws.specs.Puts.{Puts};
ghost use Rattle.memory_definition.specs.Forms.{file_characters};
ghost use Rattle.memory_definition.specs.Memory.{held_all, narrow_all, size_all, bytes_all};
ghost use Rattle.memory_laws.specs.Placed.{PlacedAll};
ghost use Rattle.memory_forms.specs.Cells.{left};

use crate::cell::put_cell;
use crate::narrow::narrow;
use memory_forms::cells::Cells;
use memory_forms::form::size_of;
use memory_forms::held::held;
use records::source::Source;

// Each node is held by the shape of its place: else 14.
pub fn held_all(file: &Source<'_>, mut cells: Cells<'_>) -> bool
    requires { PlacedAll file.now (left cells) }
    ensures { result ≡ held_all file.now (left cells.entry) }
{
    cells.all(|cell| held(file, cell.shape, cell.node))
}

// No character is too wide for its bytes: else 15.
pub fn narrow_all(file: &Source<'_>, mut cells: Cells<'_>) -> bool
    ensures { result ≡ narrow_all file.now (file_characters file.now) (left cells.entry) }
{
    cells.all(|cell| narrow(file, cell.shape, cell.node))
}

// How many bytes they have.
#[tactic(auto, using(crate::proofs::Writing::summing))]
pub fn size_all(file: &Source<'_>, cells: Cells<'_>) -> usize
    requires { length (left cells) ≤ 2048 }
    ensures { result ≡ size_all file.now (left cells.entry) }
{
    let mut sum = 0;
    for cell in cells {
        sum += size_of(cell.form(file));
    }
    sum
}

// Their bytes without gaps, from the front of the lent bytes on.
pub fn write_all(file: &Source<'_>, cells: Cells<'_>, bytes: &mut [u8]) -> usize
    requires { (held_all file.now (left cells) ≡ true) × (size_all file.now (left cells) ≤ length bytes.old) }
    ensures { Puts (bytes_all file.now (file_characters file.now) (left cells.entry)) bytes.old 0 result bytes.new }
{
    let mut end = 0;
    for cell in cells {
        end = put_cell(bytes, end, file, cell.shape, cell.node);
    }
    end
}
