//! What a repository knows of transactions that several repositories take part in: the requests that are
//! prepared and undecided, the decisions to commit that it keeps as a coordinator, and the last transaction
//! of each client that committed here alone.
#![tactic(auto)]

mod standing;
mod table;
mod transaction;

pub use standing::Standing;
pub use table::Table;
pub use transaction::Transaction;
