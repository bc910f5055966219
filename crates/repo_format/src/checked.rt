//! Whether the roots of a setup have names that a store can have.

ghost use Rattle.std.specs.List.{AllByRecursion};
ghost use Rattle.std.specs.Prelude.{◌≡◌, true};
ghost use Rattle.log_codec.specs.Checkpoint.{RootFits};

use class_defs::Root;
use thor_value::{PAGES, REPOSITORIES, SLOTS};

/// Whether all roots have names that a store can have.
pub(crate) fn have_names(roots: &[Root]) -> bool
    ensures { result ≡ true → AllByRecursion RootFits roots.now }
{
    for root in roots {
        if !has_name(root) {
            return false;
        }
    }
    true
}

/// Whether a root has a name that a store can have.
fn has_name(root: &Root) -> bool
    ensures { result ≡ true → RootFits root.now }
{
    let _class = root.class;
    root.oref.repo < REPOSITORIES && root.oref.page < PAGES && root.oref.slot < SLOTS
}
