// Types that are asked for: one, all declared types, or all that a closure says.
#![tactic(auto, using(crate::proofs::Asking::each))]

ghost use Rattle.std.specs.Prelude.{◌≡◌, ◌<◌, length};
ghost use Rattle.definition.specs.Layout as Layout;
ghost use Rattle.lines.specs.Lines.{Lends, ends};
ghost use Rattle.driver.specs.Driver.{Prepared, Held};
ghost use Rattle.driver.specs.Asked.{Recalls, AsksEach, Declares, is_declared};

use crate::driver::resolve;
use definition::layout::TYPES;
use definition::records::Declaration;
use lines::append::Lines;
use records::file::File;
use records::source::Source;

#[tactic(auto, using(crate::proofs::Asking::declaring))]
fn is_declared(file: &Source<'_>, t: u32) -> bool
    ensures { result ≡ is_declared file.now t }
{
    !matches!(file.declaration(t), Declaration::Nothing)
}

// A type, unless it is known.
#[tactic(auto, using(crate::proofs::Asking::asks))]
pub fn ask_type(
    file: &File<'_>,
    classes: &[u32],
    lines: &mut Lines<'_>,
    t: u32,
    room: &mut [u32],
) -> Option<()>
    requires { Prepared file.now.source classes.now (length lines.old.index.now) (length room.old) × Held file.now.source lines.old.index.now lines.old.store.now lines.old.end × (t < Layout.count file.now.source Layout.types) }
    ensures same { Lends lines.old lines.new }
    ensures recalls { Recalls file.now.source t lines.old.index.now lines.old.store.now lines.old.end (ends result lines.new.end) lines.new.index.now lines.new.store.now }
{
    if lines.is_unknown(t) {
        return resolve(file, classes, lines, t, room);
    }
    Some(())
}

// All types that are asked for, in rising number.
pub fn resolve_each<F: Fn(u32) -> bool>(
    file: &File<'_>,
    classes: &[u32],
    lines: &mut Lines<'_>,
    room: &mut [u32],
    asks: F,
) -> Option<()>
    requires given { Prepared file.now.source classes.now (length lines.old.index.now) (length room.old) }
    requires pre { F.IsAlwaysCallable asks }
    ensures same { Lends lines.old lines.new }
    ensures each { AsksEach file.now.source (F.post asks) (ends result lines.new.end) lines.new.index.now lines.new.store.now }
{
    lines.clear();
    let many = file.source.count(TYPES);
    for t in 0..many {
        if !asks(t) {
            continue;
        }
        ask_type(file, classes, lines, t, room)?;
    }
    Some(())
}

// All declared types.
#[tactic(auto, using(crate::proofs::Asking::of_each))]
pub fn resolve_declared(
    file: &File<'_>,
    classes: &[u32],
    lines: &mut Lines<'_>,
    room: &mut [u32],
) -> Option<()>
    requires { Prepared file.now.source classes.now (length lines.old.index.now) (length room.old) }
    ensures same { Lends lines.old lines.new }
    ensures declares { Declares file.now.source (ends result lines.new.end) lines.new.index.now lines.new.store.now }
{
    resolve_each(file, classes, lines, room, |t| is_declared(&file.source, t))
}
