// All nodes of a tree, and all their characters, one node's bytes behind the other's.
#![tactic(auto, using(crate::proofs::Along::all))]

ghost use Rattle.std.specs.Prelude.{◌≡◌, ◌++◌, ◌*◌, ◌≤◌, length, drop};
ghost use Rattle.memory_definition.specs.Memory.{readable_all, text_all, nodes_all};
ghost use Rattle.memory_laws.specs.Placed.{PlacedAll};
ghost use Rattle.memory_forms.specs.Cells.{left};
ghost use Rattle.memory_nodes.specs.All.{Written};

use crate::put::{put_read, put_text, text_length};
use crate::readable::readable;
use memory_forms::cells::Cells;
use memory_forms::form::size_of;
use records::source::Source;

// Whether the bytes are those that a tree of these parts is written as.
pub fn readable_all(file: &Source<'_>, cells: Cells<'_>, bytes: &[u8]) -> bool
    requires { PlacedAll file.now (left cells) }
    ensures { result ≡ readable_all file.now (left cells.entry) bytes.now }
{
    let mut from = 0;
    for cell in cells {
        let form = cell.form(file);
        if !readable(file, cell, form, bytes, from) {
            return false;
        }
        from += size_of(form);
    }
    from == bytes.len()
}

// How many characters.
#[tactic(auto, using(crate::proofs::Loops::counts))]
pub fn text_count(file: &Source<'_>, cells: Cells<'_>, bytes: &[u8]) -> usize
    requires { Written file.now (left cells) bytes.now }
    ensures { result ≡ length (text_all file.now (left cells.entry) bytes.now) }
{
    let mut from = 0;
    let mut total: usize = 0;
    for cell in cells {
        let form = cell.form(file);
        total += text_length(form, bytes, from) as usize;
        from += size_of(form);
    }
    total
}

// The nodes over those in `out`, in words.
#[tactic(auto, using(crate::proofs::Loops::nodings))]
fn read_nodes(file: &Source<'_>, cells: Cells<'_>, bytes: &[u8], out: &mut [u32])
    requires { Written file.now (left cells) bytes.now × (length (left cells) * 6 ≤ length out.old) }
    ensures { out.new ≡ nodes_all file.now 0 (left cells.entry) bytes.now ++ drop (length (left cells.entry) * 6) out.old }
{
    let mut from = 0;
    let mut end = 0;
    let mut many: u32 = 0;
    for cell in cells {
        let form = cell.form(file);
        end = put_read(file, cell.node, form, many, bytes, from, out, end);
        many += text_length(form, bytes, from);
        from += size_of(form);
    }
}

// The characters over those in `characters`.
#[tactic(auto, using(crate::proofs::Loops::textings))]
fn read_text(file: &Source<'_>, cells: Cells<'_>, bytes: &[u8], characters: &mut [u32])
    requires { Written file.now (left cells) bytes.now × (length (text_all file.now (left cells) bytes.now) ≤ length characters.old) }
    ensures { characters.new ≡ text_all file.now (left cells.entry) bytes.now ++ drop (length (text_all file.now (left cells.entry) bytes.now)) characters.old }
{
    let mut from = 0;
    let mut end = 0;
    for cell in cells {
        let form = cell.form(file);
        end = put_text(characters, end, form, bytes, from);
        from += size_of(form);
    }
}

// The nodes and their characters.
pub fn read_all(
    file: &Source<'_>,
    cells: Cells<'_>,
    bytes: &[u8],
    out: &mut [u32],
    characters: &mut [u32],
)
    requires { Written file.now (left cells) bytes.now × (length (left cells) * 6 ≤ length out.old) × (length (text_all file.now (left cells) bytes.now) ≤ length characters.old) }
    ensures nodes { out.new ≡ nodes_all file.now 0 (left cells.entry) bytes.now ++ drop (length (left cells.entry) * 6) out.old }
    ensures text { characters.new ≡ text_all file.now (left cells.entry) bytes.now ++ drop (length (text_all file.now (left cells.entry) bytes.now)) characters.old }
{
    read_nodes(file, cells, bytes, out);
    read_text(file, cells, bytes, characters);
}
