//! What the items of the repositories' traces and the calls of clients mean to each other, on the
//! board of history lengths: which call makes which item, which items show a client, and what
//! justifies a call. It is definitions, their one law, and worked examples.
#![tactic(auto)]

mod calls;
mod examples;
mod items;
mod naming;

pub use calls::{Call, CallKind};
pub use examples::{
    calls_have_one_place, clients_of_items, first_draws, items_of_calls, items_that_need_no_call,
    justified_calls,
};
pub use items::TraceItem;
pub use naming::{CallNaming, Served};
