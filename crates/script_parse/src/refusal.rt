ghost use Rattle.std.specs.Prelude.{◌≡◌, ◌++◌, IfOk, OnOk};
ghost use Rattle.std.specs.String.{string_bytes};
ghost use Rattle.script_parse.specs.Refusals.{line_of, refusal_text, word_of};

use class_defs::{RuleFault, rule_word};
use std::alloc::Global;
use std::fmt::Write;
use thor_value::{NoMemory, Text};

/// Why a script is refused.
#[derive(Clone, Copy, Debug, PartialEq, Eq)]
pub enum Refusal {
    /// It isn't one of the language: at this line is the first token that can't go on.
    Syntax { line: u32 },
    /// A fresh store needs a setup, and the script has none; or it has one, and the store isn't fresh.
    Setup,
    /// It breaks a rule: of the language, on events, or on upgrades.
    Rule(RuleFault),
}

/// The line that is told.
fn line_of(refusal: Refusal) -> u32
    ensures { result ≡ line_of refusal }
{
    match refusal {
        Refusal::Syntax { line } => line,
        Refusal::Setup => 1,
        Refusal::Rule(fault) => fault.line,
    }
}

/// The word that is told.
fn word_of(refusal: Refusal) -> &'static str
    ensures { result.now ≡ word_of refusal }
{
    match refusal {
        Refusal::Syntax { line: _ } => "Syntax",
        Refusal::Setup => "Setup",
        Refusal::Rule(fault) => rule_word(fault.rule),
    }
}

/// The text of a refusal: `script`, the line and the word.
#[tactic(auto, using(std::proofs::Common::append_assoc))]
pub fn refusal_text(alloc: Global, refusal: Refusal) -> Result<Text, NoMemory>
    ensures { IfOk result (λ text. text ≡ refusal_text refusal) }
{
    let mut out = String::new(alloc);
    write!(out, "script {} {}\n", line_of(refusal), word_of(refusal))?;
    Ok(Text::from_vec(out.into_bytes()))
}
