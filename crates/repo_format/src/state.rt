//! What the first checkpoint of a repository says.

ghost use Rattle.std.specs.List.{AllByRecursion};
ghost use Rattle.std.specs.Prelude.{◌≡◌, IfOk, OnOk, ◌≤◌};
ghost use Rattle.log_codec.specs.Checkpoint.{RootFits, StateFits};
ghost use Rattle.page_format.specs.Sides.{SidesFit};
ghost use Rattle.repo_format.specs.Fresh.{joined_texts, classes_text, first_state, page_behind, page_count};

use class_defs::{Class, Root, Setup};
use log_codec::{Alones, Requests, State};
use method_parse::print_class;
use page_format::{Sides, StoreFormat};
use std::alloc::Global;
use thor_value::{NoMemory, Stamps, Text, Texts, TryCopy, Ts, Writes};

/// What the first checkpoint says.
pub(crate) fn first_state(
    alloc: Global,
    repo: u8,
    repos: u8,
    setup: &Setup,
    installed: Sides,
) -> Result<State, NoMemory>
    requires roots { AllByRecursion RootFits setup.now.roots }
    ensures state { IfOk result (λ state. state ≡ first_state repo repos setup.now installed) }
    ensures fits { IfOk result StateFits }
{
    let _ = installed.as_slice();
    Ok(State {
        format: StoreFormat::Two,
        repo,
        repos,
        life: 0,
        count: 0,
        threshold: Ts {
            time: 0,
            repo: 0,
            life: 0,
        },
        next_page: page_count(repo, setup.roots.as_slice()),
        classes: text_of_classes(alloc, setup.schema.classes.as_slice())?,
        roots: setup.roots.copy()?,
        upgrades: Texts::new(alloc),
        installed,
        mob: Writes::new(alloc),
        prepared: Requests::new(alloc),
        kept: Stamps::new(alloc),
        alone: Alones::new(alloc),
    })
}

/// How many pages the roots of a repository take.
pub(crate) fn page_count(repo: u8, roots: &[Root]) -> u32
    requires { AllByRecursion RootFits roots.now }
    ensures count { result ≡ page_count repo roots.now }
    ensures few { result ≤ 65536 }
{
    let mut count = 0u32;
    for root in roots {
        count = page_behind(repo, count, root);
    }
    count
}

/// The page behind that of a root of this repository, where it is above so many.
fn page_behind(repo: u8, count: u32, root: &Root) -> u32
    requires { RootFits root.now }
    ensures { result ≡ page_behind repo count root.now }
{
    if root.oref.repo == repo {
        count.max(root.oref.page + 1)
    } else {
        count
    }
}

/// The classes as one text: their words, with one space between two.
fn text_of_classes(alloc: Global, classes: &[Class]) -> Result<Text, NoMemory>
    ensures { IfOk result (λ text. text ≡ classes_text classes.now) }
{
    let mut text = Text::new(alloc);
    for class in classes {
        put_behind(&mut text, print_class(alloc, class)?)?;
    }
    Ok(text)
}

/// Puts a text behind another, with one space between two.
fn put_behind(text: &mut Text, more: Text) -> Result<(), NoMemory>
    ensures { OnOk result (text.new ≡ joined_texts text.old more) }
{
    if !text.is_empty() {
        text.push(b' ')?;
    }
    text.append(more)
}
