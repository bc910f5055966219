//! The conditions of a replay, as tests that a caller can make.

ghost use Rattle.std.specs.Prelude.{◌≡◌, ◌≤◌, ◌↔◌, IsTrue, nat_le};
ghost use Rattle.std.specs.List.{list_all};
ghost use Rattle.serial_model.specs.Replays as spec;
ghost use Rattle.serial_model.specs.Replays.{AreMade, made_from};

use class_defs::{Schema, Schemas, UpgradedSchema};

/// The most classes of a schema: a class has a number of 16 bits.
const CLASSES: usize = 65_536;

/// Whether none of the numbers is above this one.
fn none_above(numbers: &[u32], most: usize) -> bool
    ensures { result ≡ list_all (λ k. nat_le k most) numbers.now }
{
    numbers.iter().all(|number| (*number as usize) <= most)
}

fn is_made(schema: &Schema, epoch: usize) -> bool
    ensures { result ≡ spec.is_made schema.now epoch }
{
    schema.classes.len() <= CLASSES && none_above(schema.upgraded.as_slice(), epoch)
}

/// Whether the schemas behind upgrades are as upgrades make them.
fn are_made_behind(upgraded: &[UpgradedSchema]) -> bool
    ensures { result ≡ made_from 1 upgraded.now }
{
    for index in 0..upgraded.len() {
        if !is_made(&upgraded[index].schema, index + 1) {
            return false;
        }
    }
    true
}

/// Whether the schemas are as upgrades make them, which a replay asks for.
pub fn are_made(schemas: &Schemas) -> bool
    ensures { IsTrue result ↔ AreMade schemas.now }
{
    is_made(&schemas.first, 0) && are_made_behind(schemas.upgraded.as_slice())
}
