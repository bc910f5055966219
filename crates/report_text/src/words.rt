ghost use Rattle.std.specs.Prelude.{◌≡◌, ◌++◌, ◌<◌, ◌^◌, OnOk};
ghost use Rattle.std.specs.Fmt.{decimal, signed_decimal};
ghost use Rattle.std.specs.String.{string_bytes};
ghost use Rattle.report_text.specs.Fits.{FitsCause, FitsOref, FitsTs, FitsWho};
ghost use Rattle.report_text.specs.Lines.{spaced, spaced_words};
ghost use Rattle.report_text.specs.Words.{who_word, ts_word, oref_word, fault_word, cause_words, two_numbers, three_numbers};

use base_reasons::Reason;
use itoa::Buffer;
use serial_model::Cause;
use thor_value::{Fault, NoMemory, Oref, Ts, Who};

/// Prints a number, without a space before it.
pub fn print_digits(out: &mut String, number: u64) -> Result<(), NoMemory>
    ensures { OnOk result (string_bytes out.new ≡ string_bytes out.old ++ decimal number) }
{
    let mut buffer = Buffer::new();
    out.push_str(buffer.format(number))?;
    Ok(())
}

/// Prints a number that may be negative, without a space before it.
fn print_signed_digits(out: &mut String, number: i64) -> Result<(), NoMemory>
    ensures { OnOk result (string_bytes out.new ≡ string_bytes out.old ++ signed_decimal number) }
{
    let mut buffer = Buffer::new();
    out.push_str(buffer.format(number))?;
    Ok(())
}

/// Prints two numbers as one word, without a space before it.
#[tactic(auto, using(std::proofs::Common::append_assoc))]
fn print_two(out: &mut String, first: u64, second: u64) -> Result<(), NoMemory>
    ensures { OnOk result (string_bytes out.new ≡ string_bytes out.old ++ two_numbers first second) }
{
    print_digits(out, first)?;
    out.push_str(".")?;
    print_digits(out, second)
}

/// Prints three numbers as one word, without a space before it.
#[tactic(auto, using(std::proofs::Common::append_assoc))]
fn print_three(out: &mut String, first: u64, second: u64, third: u64) -> Result<(), NoMemory>
    ensures { OnOk result (string_bytes out.new ≡ string_bytes out.old ++ three_numbers first second third) }
{
    print_digits(out, first)?;
    out.push_str(".")?;
    print_two(out, second, third)
}

/// Prints an item by client and index, without a space before it.
#[tactic(auto, unfolding(crate::specs::Words::who_word))]
pub fn print_who(out: &mut String, who: Who) -> Result<(), NoMemory>
    ensures text { OnOk result (string_bytes out.new ≡ string_bytes out.old ++ who_word who) }
    ensures fits { OnOk result (FitsWho who) }
{
    print_two(out, u64::from(who.client), u64::from(who.index))
}

/// Prints a timestamp by time, repository and life, without a space before it.
#[tactic(auto, unfolding(crate::specs::Words::ts_word))]
pub fn print_ts(out: &mut String, ts: Ts) -> Result<(), NoMemory>
    ensures text { OnOk result (string_bytes out.new ≡ string_bytes out.old ++ ts_word ts) }
    ensures fits { OnOk result (FitsTs ts) }
{
    print_three(out, ts.time, u64::from(ts.repo), u64::from(ts.life))
}

/// Prints a name by repository, page and slot, behind a space.
#[tactic(auto, using(std::proofs::Common::append_assoc), unfolding(crate::specs::Words::oref_word))]
pub fn print_oref(out: &mut String, oref: Oref) -> Result<(), NoMemory>
    ensures text { OnOk result (string_bytes out.new ≡ string_bytes out.old ++ spaced (oref_word oref)) }
    ensures fits { OnOk result (FitsOref oref) }
{
    out.push_str(" ")?;
    print_three(
        out,
        u64::from(oref.repo),
        u64::from(oref.page),
        u64::from(oref.slot),
    )
}

/// The word of a fault.
pub fn fault_name(fault: Fault) -> &'static str
    ensures { result.now ≡ fault_word fault }
{
    match fault {
        Fault::NullCall => "NullCall",
        Fault::Steps => "Steps",
        Fault::Depth => "Depth",
        Fault::Large => "Large",
    }
}

/// Prints a word and a timestamp, each behind a space.
#[tactic(auto, using(std::proofs::Common::append_assoc))]
pub fn print_with_ts(out: &mut String, word: &str, ts: Ts) -> Result<(), NoMemory>
    ensures text { OnOk result
        (string_bytes out.new ≡ string_bytes out.old ++ (spaced word.now ++ spaced (ts_word ts))) }
    ensures fits { OnOk result (FitsTs ts) }
{
    print_word(out, word)?;
    out.push_str(" ")?;
    print_ts(out, ts)
}

/// Prints a word and a name, each behind a space.
#[tactic(auto, using(std::proofs::Common::append_assoc))]
fn print_with_oref(out: &mut String, word: &str, oref: Oref) -> Result<(), NoMemory>
    ensures text { OnOk result
        (string_bytes out.new ≡ string_bytes out.old ++ (spaced word.now ++ spaced (oref_word oref))) }
    ensures fits { OnOk result (FitsOref oref) }
{
    print_word(out, word)?;
    print_oref(out, oref)
}

/// Prints a word and a number, each behind a space.
#[tactic(auto, using(std::proofs::Common::append_assoc))]
fn print_with_number(out: &mut String, word: &str, number: u64) -> Result<(), NoMemory>
    ensures text { OnOk result
        (string_bytes out.new ≡ string_bytes out.old ++ (spaced word.now ++ spaced (decimal number))) }
    ensures fits { OnOk result (number < 2 ^ 64) }
{
    print_word(out, word)?;
    print_number(out, number)
}

/// Prints a number behind a space.
#[tactic(auto, using(std::proofs::Common::append_assoc))]
pub fn print_number(out: &mut String, number: u64) -> Result<(), NoMemory>
    ensures text { OnOk result (string_bytes out.new ≡ string_bytes out.old ++ spaced (decimal number)) }
    ensures fits { OnOk result (number < 2 ^ 64) }
{
    out.push_str(" ")?;
    print_digits(out, number)
}

/// Prints a value behind a space.
#[tactic(auto, using(std::proofs::Common::append_assoc))]
pub fn print_value(out: &mut String, value: i64) -> Result<(), NoMemory>
    ensures { OnOk result (string_bytes out.new ≡ string_bytes out.old ++ spaced (signed_decimal value)) }
{
    out.push_str(" ")?;
    print_signed_digits(out, value)
}

/// Prints a word behind a space.
#[tactic(auto, using(std::proofs::Common::append_assoc))]
pub fn print_word(out: &mut String, word: &str) -> Result<(), NoMemory>
    ensures { OnOk result (string_bytes out.new ≡ string_bytes out.old ++ spaced word.now) }
{
    out.push_str(" ")?;
    out.push_str(word)?;
    Ok(())
}

/// Prints a cause and what it names, each word behind a space.
#[tactic(auto, using(std::proofs::Common::append_assoc), unfolding(crate::specs::Words::cause_words))]
pub fn print_cause(out: &mut String, cause: Cause) -> Result<(), NoMemory>
    ensures text { OnOk result
        (string_bytes out.new ≡ string_bytes out.old ++ spaced_words (cause_words cause)) }
    ensures fits { OnOk result (FitsCause cause) }
{
    match cause {
        Cause::Reason(Reason::Stale { oref, place }) => {
            print_with_oref(out, "Stale", oref)?;
            print_number(out, place)
        }
        Cause::Reason(Reason::Earlier { tx, oref }) => {
            print_with_ts(out, "Earlier", tx)?;
            print_oref(out, oref)
        }
        Cause::Reason(Reason::Later { tx, oref }) => {
            print_with_ts(out, "Later", tx)?;
            print_oref(out, oref)
        }
        Cause::Reason(Reason::TooOld { threshold }) => print_with_ts(out, "TooOld", threshold),
        Cause::Reason(Reason::Epoch { n }) => print_with_number(out, "Epoch", u64::from(n)),
        Cause::Reason(Reason::Blocked { tx }) => print_with_ts(out, "Blocked", tx),
        Cause::Reason(Reason::Gone { session }) => {
            print_with_number(out, "Gone", u64::from(session))
        }
        Cause::Missing { oref } => print_with_oref(out, "Missing", oref),
        Cause::Down { repo } => print_with_number(out, "Down", u64::from(repo)),
        Cause::Reason(Reason::Full { limit }) => print_with_number(out, "Full", u64::from(limit)),
        Cause::Reason(Reason::ClockEnd) => print_word(out, "ClockEnd"),
        Cause::Calls => print_word(out, "Calls"),
    }
}
