//! The report of a run: its text, printed, and its words.
#![tactic(auto)]

mod history;
mod items;
mod laws;
mod print;
mod words;

pub use items::print_item;
pub use laws::{
    example_report_is_as_shown, newlines_add_up, reports_have_two_lines, text_tells_the_report,
};
pub use print::print_report;
pub use words::{
    print_cause, print_number, print_oref, print_ts, print_who, print_with_ts, print_word,
};
