// Shape classes: for each shape the lowest that the Rust's `==` calls equal to it, so that two shapes are compared by two numbers.
#![tactic(auto, using(crate::proofs::Classing::classing))]

ghost use Rattle.std.specs.Prelude.{◌≡◌, ◌++◌, ◌<◌, ◌≤◌, length, drop};
ghost use Rattle.definition.specs.Layout as Layout;
ghost use Rattle.definition.specs.Layout.{shapes};
ghost use Rattle.definition.specs.Accept.{same_shape};
ghost use Rattle.shapes.specs.Classes.{classes_of, Classes};

use crate::alike::same_in;
use crate::like::first_like;
use definition::layout::SHAPES;
use records::file::File;

// Bottom up: shapes point only lower, so a shape is compared through classes that stand already.
#[tactic(auto, using(crate::proofs::Classing::filling))]
pub fn shape_classes(file: &File<'_>, words: &mut [u32])
    requires { Layout.count file.now.source shapes ≤ length words.old }
    ensures { words.new ≡ classes_of file.now.source ++ drop (Layout.count file.now.source shapes) words.old }
{
    let many = file.source.count(SHAPES);
    for n in 0..many {
        let at = n as usize;
        let class = first_like(&file.source, &words[..at], false, n);
        words[at] = class;
    }
}

// Whether the Rust's `==` calls two shapes equal, by the classes of their file.
pub fn same_shape(file: &File<'_>, classes: &[u32], m: u32, n: u32) -> bool
    requires { Classes file.now.source classes.now × (m < Layout.count file.now.source shapes) × (n < Layout.count file.now.source shapes) }
    ensures { result ≡ same_shape file.now.source m n }
{
    same_in(classes, m, n)
}
