//! What a repository keeps of its sessions says what its trace says of them. It is definitions and laws.
#![tactic(auto)]

mod laws;

pub use laws::{
    agreement_answers, agreement_makes_exact_marks, beginnings_keep_agreement,
    entries_keep_agreement, marks_keep_agreement,
};
