//! The words as `clap` reads them, with an option in both of its forms.

use clap::error::ErrorKind;
use clap::{Arg, ArgAction, ArgMatches, Command as Parser};
use std::alloc::{AllocError, Global};
use std::str;
use thor_value::{NoMemory, Text};

/// The option that every command has.
const OF_ALL: [&str; 1] = ["repos"];

/// Those that a command has that looks at a store.
const OF_STORES: [&str; 2] = ["repos", "store"];

/// Those that a command has besides that makes a run.
const OF_RUNS: [&str; 3] = ["tries", "mob", "cache"];

/// What was read: each value as it was written.
#[derive(Clone, Copy)]
pub(crate) struct Parsed<'a> {
    pub(crate) command: &'a str,
    pub(crate) number: Option<&'a str>,
    pub(crate) repos: Option<&'a str>,
    pub(crate) store: Option<&'a str>,
    pub(crate) tries: Option<&'a str>,
    pub(crate) mob: Option<&'a str>,
    pub(crate) cache: Option<&'a str>,
}

/// A command with these options.
fn with_options<'a>(
    alloc: Global,
    command: Parser<'a>,
    names: &[&'a str],
) -> Result<Parser<'a>, AllocError> {
    let mut command = command;
    for name in names {
        let option = Arg::new(alloc, name).long(name).action(ArgAction::Set);
        command = command.arg(option)?;
    }
    Ok(command)
}

/// A command that makes a run.
fn run_command<'a>(alloc: Global, name: &'a str) -> Result<Parser<'a>, AllocError> {
    let command = with_options(alloc, Parser::new(alloc, name), &OF_STORES)?;
    with_options(alloc, command, &OF_RUNS)
}

/// The program's words.
fn parser<'a>(alloc: Global) -> Result<Parser<'a>, AllocError> {
    let check = with_options(alloc, Parser::new(alloc, "check"), &OF_STORES)?;
    let audit = with_options(alloc, Parser::new(alloc, "audit"), &OF_ALL)?;
    let number = Arg::new(alloc, "number")
        .required(true)
        .action(ArgAction::Set);
    let generated = run_command(alloc, "gen")?.arg(number)?;
    Parser::new(alloc, "kilntaupe")
        .subcommand(check)?
        .subcommand(run_command(alloc, "play")?)?
        .subcommand(run_command(alloc, "run")?)?
        .subcommand(audit)?
        .subcommand(generated)
}

/// The words as text, behind the program's name; nothing where one isn't UTF-8.
pub(crate) fn texts_of<'a>(
    alloc: Global,
    words: &'a [Text],
) -> Result<Option<Vec<&'a str>>, NoMemory> {
    let mut texts: Vec<&'a str> = Vec::new(alloc);
    texts.push("kilntaupe")?;
    for word in words {
        match str::from_utf8(word.as_slice()) {
            Ok(text) => texts.push(text)?,
            Err(_) => return Ok(None),
        }
    }
    Ok(Some(texts))
}

/// What was matched, where a command was.
fn parsed_in<'a>(matches: &ArgMatches<'a>) -> Option<Parsed<'a>> {
    let (command, options) = matches.subcommand()?;
    Some(Parsed {
        command,
        number: options.get_str("number"),
        repos: options.get_str("repos"),
        store: options.get_str("store"),
        tries: options.get_str("tries"),
        mob: options.get_str("mob"),
        cache: options.get_str("cache"),
    })
}

/// What `clap` reads of the words behind the program's name; nothing where it refuses them.
pub(crate) fn parse<'a>(
    alloc: Global,
    texts: &'a [&'a str],
) -> Result<Option<Parsed<'a>>, NoMemory> {
    match parser(alloc)?.try_get_matches_from(texts) {
        Ok(matches) => Ok(parsed_in(&matches)),
        Err(error) => match error.kind() {
            ErrorKind::OutOfMemory => Err(NoMemory),
            _ => Ok(None),
        },
    }
}
