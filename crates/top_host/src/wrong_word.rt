//! Which word of a faulty command line is wrong, and what would be right in its place.

use std::alloc::Global;
use std::str;
use thor_value::{NoMemory, Text, Texts, TryCopy};
use top_words::{WordsFault, read_words};

/// A word that is right wherever a value is wanted.
const A_VALUE: &[u8] = b"1";

const COMMANDS: &str = "a command: check, play, run, gen N or audit";

const OPTIONS: &str =
    "an option that wasn't given yet: --tries 1 to 100, --mob 1 to 16777216, --cache 1 to 4096, --repos 1 to 8, --store FOLDER";

const OPTIONS_OF_CHECK: &str =
    "an option of check that wasn't given yet: --repos 1 to 8, --store FOLDER";

const OPTIONS_OF_AUDIT: &str = "the option of audit where it wasn't given yet: --repos 1 to 8";

/// What to tell of words that are no command. The wrong word is the first behind which no words make one; where there is
/// none, a word is missing at the end.
pub fn fault_of(alloc: Global, words: &[Text]) -> Result<String, NoMemory> {
    let mut before = Texts::new(alloc);
    for word in words {
        let right = right_behind(alloc, before.as_slice())?;
        before.push(word.copy()?)?;
        if !begins_a_command(alloc, &mut before)? {
            return fault_at(alloc, words, word, right);
        }
    }
    let right = right_behind(alloc, before.as_slice())?;
    Ok(format!(in alloc; "a word is missing at the end; what fits is {right} (--help tells more)")?)
}

/// What to tell of a wrong word, where this would be right. One without a dash in the place of an option is taken for the name
/// of a script's file.
fn fault_at(
    alloc: Global,
    words: &[Text],
    word: &Text,
    right: &'static str,
) -> Result<String, NoMemory> {
    let wrong = str::from_utf8(word.as_slice()).unwrap_or("");
    let is_file = !wrong.starts_with('-')
        && (right == OPTIONS || right == OPTIONS_OF_CHECK || right == OPTIONS_OF_AUDIT);
    match reading_command(words) {
        Some(command) if is_file => Ok(format!(in alloc;
            "scripts come by standard input: {command} < FILE; the word {wrong:?} is wrong here, and what fits is {right} (--help tells more)"
        )?),
        _ => Ok(format!(in alloc;
            "the word {wrong:?} is wrong here; what fits is {right} (--help tells more)"
        )?),
    }
}

/// The command that words begin with, where it reads a script.
fn reading_command(words: &[Text]) -> Option<&'static str> {
    match words.first()?.as_slice() {
        b"check" => Some("check"),
        b"play" => Some("play"),
        b"run" => Some("run"),
        b"audit" => Some("audit"),
        _ => None,
    }
}

/// Whether words are a command with its options.
fn is_command(alloc: Global, words: &[Text]) -> Result<bool, NoMemory> {
    match read_words(alloc, words) {
        Ok(_plan) => Ok(true),
        Err(WordsFault::Words) => Ok(false),
        Err(WordsFault::NoMemory) => Err(NoMemory),
    }
}

/// Whether words begin a command: they are one, or lack the value of the last.
fn begins_a_command(alloc: Global, words: &mut Texts) -> Result<bool, NoMemory> {
    if is_command(alloc, words.as_slice())? {
        return Ok(true);
    }
    words.push(Text::from_slice(alloc, A_VALUE)?)?;
    let begins = is_command(alloc, words.as_slice())?;
    let _ = words.pop();
    Ok(begins)
}

/// What is right behind words that begin a command.
fn right_behind(alloc: Global, words: &[Text]) -> Result<&'static str, NoMemory> {
    let (Some(first), Some(last)) = (words.first(), words.last()) else {
        return Ok(COMMANDS);
    };
    if !is_command(alloc, words)? {
        return Ok(value_of(last.as_slice()));
    }
    Ok(match first.as_slice() {
        b"check" => OPTIONS_OF_CHECK,
        b"audit" => OPTIONS_OF_AUDIT,
        _ => OPTIONS,
    })
}

/// The values that a word has behind it.
fn value_of(word: &[u8]) -> &'static str {
    match word {
        b"gen" => "a number from 1 to 1000",
        b"--tries" => "a number from 1 to 100",
        b"--mob" => "a number from 1 to 16777216",
        b"--cache" => "a number from 1 to 4096",
        b"--repos" => "a number from 1 to 8",
        _ => "a folder, whose name doesn't begin with a dash",
    }
}
