//! What a plain repository reads off its trace, by going over all of it each time: its state, its window, its commits,
//! a session, and what stands against a request.
#![tactic(auto)]

mod against;
mod bytes;
mod calls;
mod copies;
mod finding;
mod forgotten;
mod item;
mod names;
mod notice;
mod opening;
mod paging;
mod reading;
mod session;
mod standing;
mod state;
mod window;

pub use forgotten::is_forgotten;
pub use item::Item;
pub use notice::{Notice, Says};
pub use opening::Opening;
pub use paging::page_at;
pub use reading::Reading;
pub use session::Session;
pub use state::State;
pub use window::Window;
