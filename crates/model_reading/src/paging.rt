//! The bytes of a page at a place.

ghost use Rattle.spec_history.specs.History.{put};
ghost use Rattle.std.specs.Prelude.{IfOk, OnOk, ◌≡◌};
ghost use Rattle.model_reading.specs.Items.{read, trace_of};
ghost use Rattle.model_reading.specs.Opening.{base_of};
ghost use Rattle.model_reading.specs.Paging.{page_at, put_below, state_below};

use crate::bytes::page_of;
use crate::item::Item;
use crate::opening::Opening;
use crate::state::State;
use log_entries::Entry;
use page_format::PageImage;
use std::alloc::Global;
use thor_value::NoMemory;

/// One more entry comes.
#[tactic(auto, using(crate::proofs::Settling::put_is))]
fn pass(state: &mut State, opening: &Opening, entry: &Entry) -> Result<(), NoMemory>
    ensures { OnOk result (state.new ≡ put (base_of opening.now) state.old entry.now) }
{
    let found = state.found_by(opening, entry)?;
    state.put(entry, &found)
}

/// One more item comes, which counts only where it is an entry below a place.
fn pass_below(state: &mut State, opening: &Opening, place: u64, item: &Item) -> Result<(), NoMemory>
    ensures { OnOk result (state.new ≡ put_below (base_of opening.now) place state.old (read item.now)) }
{
    match item {
        Item::Entry { entry } => {
            if state.count() < place {
                return pass(state, opening, entry);
            }
            Ok(())
        }
        Item::Mark { .. } => Ok(()),
    }
}

fn state_below(
    alloc: Global,
    opening: &Opening,
    place: u64,
    items: &[Item],
) -> Result<State, NoMemory>
    ensures { IfOk result (λ state. state ≡ state_below (base_of opening.now) place (trace_of items.now)) }
{
    let mut state = State::begin(alloc, opening)?;
    for item in items {
        pass_below(&mut state, opening, place, item)?;
    }
    Ok(state)
}

/// The bytes of a page, as the entries below a place make it. Want of memory, too, where its objects have no room there.
pub fn page_at(
    alloc: Global,
    opening: &Opening,
    items: &[Item],
    page: u32,
    place: u64,
) -> Result<PageImage, NoMemory>
    ensures { IfOk result (λ bytes. bytes ≡ page_at (base_of opening.now) (trace_of items.now) page place) }
{
    let state = state_below(alloc, opening, place, items)?;
    page_of(alloc, page, state.objects())
}
