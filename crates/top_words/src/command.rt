ghost use Rattle.std.specs.Prelude.{◌≡◌, ◌<◌, Some, length};
ghost use Rattle.std.specs.List.{list_all};
ghost use Rattle.std.specs.Str.{is_utf8};
ghost use Rattle.top_words.specs.Words as spec;
ghost use Rattle.top_words.specs.Words.{Gives};

use crate::parsing::{Parsed, parse, texts_of};
use script_text::digits_value;
use std::alloc::Global;
use std::str;
use thor_value::{NoMemory, Text};

/// What the program is to do.
#[derive(Clone, Copy, Debug, PartialEq, Eq)]
pub enum Command {
    /// To read and check the script, against the store where there is one.
    Check,
    /// To run the script, one event after the other.
    Play,
    /// To run the script, each client and each repository on its own.
    Run,
    /// To run the generated script of this number, 1 to 1,000, and to add its accounts up.
    Gen { n: u16 },
    /// To tell whether a report is true of a script.
    Audit,
}

/// What the words of the program ask for.
#[derive(Drop)]
pub struct Plan {
    pub command: Command,
    /// How many repositories there are, 1 to 8.
    pub repos: u8,
    /// The folder in which the repositories lie; without one they lie in memory.
    pub store: Option<Text>,
    /// How many times an item is tried, 1 to 100.
    pub tries: u8,
    /// How many bytes the buffer of modified objects of a repository has, 1 to 16,777,216.
    pub mob: u32,
    /// How many pages a client holds between tries, 1 to 4,096.
    pub cache: u32,
}

/// Why words are no plan.
#[derive(Clone, Copy, Debug, PartialEq, Eq)]
pub enum WordsFault {
    /// They are none of the program's.
    Words,
    /// Memory was not there.
    NoMemory,
}

impl From<NoMemory> for WordsFault {
    ghost use Rattle.top_words.specs.declared.command.WordsFault.TheVariants as fault;

    ghost from_gives = { λ _ made. made ≡ fault.NoMemory };

    fn from(_refused: NoMemory) -> WordsFault {
        WordsFault::NoMemory
    }
}

/// The options that were given.
#[derive(Drop)]
pub struct Given {
    tries: Option<u8>,
    mob: Option<u32>,
    cache: Option<u32>,
    repos: Option<u8>,
    store: Option<Text>,
}

/// The greatest number that a word can be.
const GREATEST: u64 = 999_999_999;

/// The number that a word of one to nine digits is.
fn number_of(word: &[u8]) -> Option<u64>
    ensures { result ≡ spec.number_of word.now }
{
    if word.is_empty() || 9 < word.len() {
        return None;
    }
    digits_value(GREATEST, word)
}

/// The number that a word is, where it is from 1 to `greatest`.
fn number_within(greatest: u32, word: &[u8]) -> Option<u32>
    ensures { result ≡ spec.number_within greatest word.now }
{
    match number_of(word) {
        Some(number) if 1 <= number && number <= u64::from(greatest) => Some(number as u32),
        _ => None,
    }
}

/// The same for a number below 256.
fn small_within(greatest: u8, word: &[u8]) -> Option<u8>
    ensures { result ≡ spec.number_within greatest word.now }
{
    match number_of(word) {
        Some(number) if 1 <= number && number <= u64::from(greatest) => Some(number as u8),
        _ => None,
    }
}

/// The same for a number below 65,536.
fn count_within(greatest: u16, word: &[u8]) -> Option<u16>
    ensures { result ≡ spec.number_within greatest word.now }
{
    match number_of(word) {
        Some(number) if 1 <= number && number <= u64::from(greatest) => Some(number as u16),
        _ => None,
    }
}

/// The folder that a word names.
fn folder_of(alloc: Global, word: &[u8]) -> Result<Text, WordsFault>
    ensures { Gives (spec.folder_of word.now) result }
{
    match word {
        [] => Err(WordsFault::Words),
        [b'-', ..] => Err(WordsFault::Words),
        _ => Ok(Text::from_slice(alloc, word)?),
    }
}

/// What was given, with one more option, by its name and with its value.
fn with_option(alloc: Global, given: Given, name: &[u8], value: &[u8]) -> Result<Given, WordsFault>
    ensures { Gives (spec.with_option given name.now value.now) result }
{
    if name == b"--tries".as_slice() {
        with_tries(given, small_within(100, value))
    } else if name == b"--mob".as_slice() {
        with_mob(given, number_within(16_777_216, value))
    } else if name == b"--cache".as_slice() {
        with_cache(given, number_within(4_096, value))
    } else if name == b"--repos".as_slice() {
        with_repos(given, small_within(8, value))
    } else if name == b"--store".as_slice() {
        with_store(given, folder_of(alloc, value)?)
    } else {
        Err(WordsFault::Words)
    }
}

fn with_tries(given: Given, found: Option<u8>) -> Result<Given, WordsFault>
    ensures { Gives (spec.with_tries given found) result }
{
    match (given.tries, found) {
        (None, Some(tries)) => Ok(Given {
            tries: Some(tries),
            ..given
        }),
        _ => Err(WordsFault::Words),
    }
}

fn with_mob(given: Given, found: Option<u32>) -> Result<Given, WordsFault>
    ensures { Gives (spec.with_mob given found) result }
{
    match (given.mob, found) {
        (None, Some(mob)) => Ok(Given {
            mob: Some(mob),
            ..given
        }),
        _ => Err(WordsFault::Words),
    }
}

fn with_cache(given: Given, found: Option<u32>) -> Result<Given, WordsFault>
    ensures { Gives (spec.with_cache given found) result }
{
    match (given.cache, found) {
        (None, Some(cache)) => Ok(Given {
            cache: Some(cache),
            ..given
        }),
        _ => Err(WordsFault::Words),
    }
}

fn with_repos(given: Given, found: Option<u8>) -> Result<Given, WordsFault>
    ensures { Gives (spec.with_repos given found) result }
{
    match (given.repos, found) {
        (None, Some(repos)) => Ok(Given {
            repos: Some(repos),
            ..given
        }),
        _ => Err(WordsFault::Words),
    }
}

fn with_store(given: Given, folder: Text) -> Result<Given, WordsFault>
    ensures { Gives (spec.with_store given (Some folder)) result }
{
    match given.store {
        None => Ok(Given {
            store: Some(folder),
            ..given
        }),
        Some(_) => Err(WordsFault::Words),
    }
}

/// Where a word has its first `=`.
fn equals_at(word: &[u8]) -> Option<usize>
    ensures { result ≡ spec.equals_at word.now }
{
    word.iter().position(|byte| *byte == b'=')
}

/// What was given, with an option that is one word: its name, `=` and its value.
fn with_joined(alloc: Global, given: Given, word: &[u8], place: usize) -> Result<Given, WordsFault>
    requires { place < length word.now }
    ensures { Gives (spec.with_joined given word.now place) result }
{
    with_option(
        alloc,
        given,
        word.split_at(place).0,
        word.split_at(place + 1).1,
    )
}

/// What was given, with the options of these words: each is one word or two.
#[tactic(auto, using(crate::proofs::Options::joined_gives, crate::proofs::Options::apart_gives, crate::proofs::Options::alone_gives))]
fn with_options(alloc: Global, given: Given, words: &[Text]) -> Result<Given, WordsFault>
    ensures { Gives (spec.with_options given words.now) result }
{
    let Some((word, rest)) = words.split_first() else {
        return Ok(given);
    };
    if let Some(place) = equals_at(word.as_slice()) {
        let more = with_joined(alloc, given, word.as_slice(), place)?;
        return with_options(alloc, more, rest);
    }
    let Some((value, rest)) = rest.split_first() else {
        return Err(WordsFault::Words);
    };
    let more = with_option(alloc, given, word.as_slice(), value.as_slice())?;
    with_options(alloc, more, rest)
}

/// The plan of a command, by its options.
fn plan_for(command: Command, given: Given) -> Option<Plan>
    ensures { result ≡ spec.plan_for command given }
{
    let bare = given.tries.is_none() && given.mob.is_none() && given.cache.is_none();
    if command == Command::Check && !bare {
        return None;
    }
    if command == Command::Audit && !(bare && given.store.is_none()) {
        return None;
    }
    Some(Plan {
        command,
        repos: given.repos.unwrap_or(1),
        store: given.store,
        tries: given.tries.unwrap_or(16),
        mob: given.mob.unwrap_or(1_048_576),
        cache: given.cache.unwrap_or(64),
    })
}

fn command_named(word: &[u8]) -> Option<Command>
    ensures { result ≡ spec.command_named word.now }
{
    match word {
        b"check" => Some(Command::Check),
        b"play" => Some(Command::Play),
        b"run" => Some(Command::Run),
        b"audit" => Some(Command::Audit),
        _ => None,
    }
}

fn is_text(word: &[u8]) -> bool
    ensures { result ≡ is_utf8 word.now }
{
    match str::from_utf8(word) {
        Ok(_text) => true,
        Err(_) => false,
    }
}

fn are_text(words: &[Text]) -> bool
    ensures { result ≡ list_all is_utf8 words.now }
{
    for word in words {
        if !is_text(word.as_slice()) {
            return false;
        }
    }
    true
}

/// The plan of a command behind which these words are the options.
fn plan_with(alloc: Global, command: Command, words: &[Text]) -> Result<Plan, WordsFault>
    ensures { Gives (spec.plan_with command words.now) result }
{
    let nothing = Given {
        tries: None,
        mob: None,
        cache: None,
        repos: None,
        store: None,
    };
    let given = with_options(alloc, nothing, words)?;
    plan_for(command, given).ok_or(WordsFault::Words)
}

/// The plan of the words behind `gen`: a number and options.
fn plan_of_gen(alloc: Global, words: &[Text]) -> Result<Plan, WordsFault>
    ensures { Gives (spec.plan_of_gen words.now) result }
{
    let Some((number, options)) = words.split_first() else {
        return Err(WordsFault::Words);
    };
    match count_within(1_000, number.as_slice()) {
        Some(n) => plan_with(alloc, Command::Gen { n }, options),
        None => Err(WordsFault::Words),
    }
}

/// The plan of words that are UTF-8.
fn plan_of_words(alloc: Global, words: &[Text]) -> Result<Plan, WordsFault>
    ensures { Gives (spec.plan_of_words words.now) result }
{
    let Some((first, rest)) = words.split_first() else {
        return Err(WordsFault::Words);
    };
    if first.as_slice() == b"gen".as_slice() {
        return plan_of_gen(alloc, rest);
    }
    match command_named(first.as_slice()) {
        Some(command) => plan_with(alloc, command, rest),
        None => Err(WordsFault::Words),
    }
}

/// What the words ask for by the list of words.
fn listed_plan(alloc: Global, words: &[Text]) -> Result<Plan, WordsFault>
    ensures { Gives (spec.plan_of words.now) result }
{
    if are_text(words) {
        plan_of_words(alloc, words)
    } else {
        Err(WordsFault::Words)
    }
}

/// The number that an option has, or the usual one.
fn number_or(greatest: u32, value: Option<&str>, usual: u32) -> Option<u32> {
    match value {
        Some(text) => number_within(greatest, text.as_bytes()),
        None => Some(usual),
    }
}

/// Whether two folders are the same.
fn is_same_folder(parsed: Option<&str>, listed: &Option<Text>) -> bool {
    match (parsed, listed) {
        (Some(parsed), Some(listed)) => parsed.as_bytes() == listed.as_slice(),
        (None, None) => true,
        (_, _) => false,
    }
}

/// Whether a command that was read is this one.
fn is_command(parsed: &Parsed<'_>, command: Command) -> bool {
    match command {
        Command::Check => parsed.command == "check",
        Command::Play => parsed.command == "play",
        Command::Run => parsed.command == "run",
        Command::Gen { n } => {
            parsed.command == "gen" && number_or(1_000, parsed.number, 0) == Some(u32::from(n))
        }
        Command::Audit => parsed.command == "audit",
    }
}

/// Whether what was read is this plan.
fn is_plan(parsed: &Parsed<'_>, plan: &Plan) -> bool {
    is_command(parsed, plan.command)
        && number_or(8, parsed.repos, 1) == Some(u32::from(plan.repos))
        && number_or(100, parsed.tries, 16) == Some(u32::from(plan.tries))
        && number_or(16_777_216, parsed.mob, 1_048_576) == Some(plan.mob)
        && number_or(4_096, parsed.cache, 64) == Some(plan.cache)
        && is_same_folder(parsed.store, &plan.store)
}

/// Whether `clap` reads this plan in the words.
fn is_parsed(alloc: Global, words: &[Text], plan: &Plan) -> Result<bool, NoMemory> {
    let Some(texts) = texts_of(alloc, words)? else {
        return Ok(false);
    };
    match parse(alloc, texts.as_slice())? {
        Some(parsed) => Ok(is_plan(&parsed, plan)),
        None => Ok(false),
    }
}

/// What the words ask for, which aren't those of the program's name.
///
/// `gen` is followed by one number. Each option is given at most once, as two words or as one with `=`. `check`
/// takes the repositories and the folder alone, `audit` the repositories alone. The list of words decides; `clap` reads what it takes, and where that is
/// another plan nothing is answered: the fault is that of want of memory.
pub fn read_words(alloc: Global, words: &[Text]) -> Result<Plan, WordsFault>
    ensures { Gives (spec.plan_of words.now) result }
{
    let plan = listed_plan(alloc, words)?;
    if !is_parsed(alloc, words, &plan)? {
        drop(plan);
        return Err(WordsFault::NoMemory);
    }
    Ok(plan)
}
