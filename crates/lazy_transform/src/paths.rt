ghost use Rattle.std.specs.Prelude.{◌≡◌, ◌++◌, map, IfOk, OnOk};
ghost use Rattle.lazy_transform.specs.Reads.{paths_of, paths_of_fields};

use class_defs::{FieldUpgrades, Names, Tf};
use std::alloc::Global;
use thor_value::NoMemory;

/// Puts the paths of an expression, from left to right, behind those that are there.
#[tactic(auto, unfolding(crate::specs::Reads::paths_of))]
fn push_paths<'a>(tf: &'a Tf, paths: &mut Vec<&'a Names>) -> Result<(), NoMemory>
    ensures { OnOk result (map (λ p. p.now) paths.new.items ≡ map (λ p. p.now) paths.old.items ++ paths_of tf.now) }
{
    match tf {
        Tf::Null { line: _ } | Tf::Literal { value: _, line: _ } => Ok(()),
        Tf::Path { names, line: _ } => {
            paths.push(names)?;
            Ok(())
        }
        Tf::Parens { inner, line: _ } => push_paths(inner.get(), paths),
        Tf::Negate { operand, line: _ } => push_paths(operand.get(), paths),
        Tf::Binary {
            operator: _,
            left,
            right,
            line: _,
        } => {
            push_paths(left.get(), paths)?;
            push_paths(right.get(), paths)
        }
    }
}

/// The paths of all new fields of a class, in the order of the text.
pub fn paths_of_fields(alloc: Global, fields: &FieldUpgrades) -> Result<Vec<&Names>, NoMemory>
    ensures { IfOk result (λ paths. map (λ p. p.now) paths.items ≡ paths_of_fields fields.now) }
{
    let mut paths = Vec::new(alloc);
    for field in fields.as_slice() {
        push_paths(&field.value, &mut paths)?;
    }
    Ok(paths)
}
