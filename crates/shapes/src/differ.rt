// Refusal 5: two shapes are alike.
#![tactic(auto, using(crate::proofs::Keying::apart))]

ghost use Rattle.std.specs.Prelude.{◌≡◌, not, suc, ◌<◌, ◌≤◌};
ghost use Rattle.definition.specs.Base.{every};
ghost use Rattle.definition.specs.Layout as Layout;
ghost use Rattle.definition.specs.Layout.{shapes};
ghost use Rattle.definition.specs.Accept as Accept;
ghost use Rattle.definition.specs.Accept.{shapes_differ};
ghost use Rattle.shapes.specs.Keys.{Keyed};

use crate::keys::fill_keys;
use crate::like::Sought;
use definition::layout::SHAPES;
use records::source::Source;

// As many as there may be shapes.
const MOST_SHAPES: usize = 1024;

#[tactic(auto, using(crate::proofs::Keying::apart), unfolding(definition::specs::Accept::alike))]
fn alike(file: &Source<'_>, m: u32, n: u32) -> bool
    ensures { result ≡ Accept.alike file.now m n }
{
    Sought::new(file, &[], true, n).is_like(m)
}

// Shapes of different keys are not compared any further.
fn alike_by_key(file: &Source<'_>, keys: &[u64], m: u32, n: u32) -> bool
    requires { Keyed file.now keys.now (suc n) × (m < n) }
    ensures { result ≡ Accept.alike file.now m n }
{
    if keys[m as usize] != keys[n as usize] {
        return false;
    }
    alike(file, m, n)
}

fn shape_differs(file: &Source<'_>, keys: &[u64], n: u32) -> bool
    requires { Keyed file.now keys.now (suc n) }
    ensures { result ≡ every (λ m. not (Accept.alike file.now m n)) n }
{
    (0..n).all(|m| !alike_by_key(file, keys, m, n))
}

fn all_differ(file: &Source<'_>, keys: &[u64], many: u32) -> bool
    requires { Keyed file.now keys.now many }
    ensures { result ≡ every (λ n. every (λ m. not (Accept.alike file.now m n)) n) many }
{
    (0..many).all(|n| shape_differs(file, keys, n))
}

pub fn shapes_differ(file: &Source<'_>) -> bool
    requires { Layout.count file.now shapes ≤ 1024 }
    ensures { result ≡ shapes_differ file.now }
{
    let many = file.count(SHAPES);
    let mut keys = [0u64; MOST_SHAPES];
    fill_keys(file, many, &mut keys);
    all_differ(file, &keys, many)
}
