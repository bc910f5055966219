use crate::syntax::Syntax;
use crate::token::Tokens;
use thor_value::Sequence;

/// The items of a client, in order, each with its tokens from its first word on.
pub type ItemParts = Sequence<Tokens>;

/// The items of each client, in order.
pub type ClientParts = Sequence<ItemParts>;

/// The parts of a script.
#[derive(Debug, Drop)]
pub struct Sections {
    /// What stands behind the word `setup`, where the script has it.
    pub setup: Option<Tokens>,
    pub clients: ClientParts,
    /// What stands behind the word `schedule`; nothing without it.
    pub schedule: Tokens,
}

/// How far a script falls into its parts.
///
/// A fault inside a part comes before one behind it. So where there is a fault, `sections` has what stands
/// before it, and who reads the parts in their order has the first fault of all: that of the first part that
/// has one, else this. The last part is left out while it has but its first word. It ends with the token at
/// which it faults where it can't end before that, so that its reader faults there at the latest.
#[derive(Debug, Drop)]
pub struct Split {
    pub sections: Sections,
    pub fault: Option<Syntax>,
}
