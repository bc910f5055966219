//! What the words of the program ask for.

use crate::options::{Ending, Options};
use crate::world::Bounds;
use thor_value::Text;

/// What is asked for.
#[derive(Clone, Copy)]
pub struct Asked {
    pub seed: u64,
    /// The number of the first run, and how many there are.
    pub from: u64,
    pub count: u64,
    pub bounds: Bounds,
    /// Whether the script is read from standard input, and with what it is played then.
    pub is_own: bool,
    pub options: Options,
    /// Whether a script that is wrong is shrunk.
    pub shrinks: bool,
    /// Whether what came how often is told.
    pub tables: bool,
    /// Whether the script of each run is told.
    pub scripts: bool,
}

/// What is asked for without words.
const USUAL: Asked = Asked {
    seed: 1,
    from: 0,
    count: 200,
    bounds: Bounds {
        repos: 8,
        clients: 8,
        items: 8,
    },
    is_own: false,
    options: Options {
        repos: 1,
        tries: 16,
        cache: 64,
        mob: 1_048_576,
        ending: Ending::Drained,
    },
    shrinks: true,
    tables: false,
    scripts: false,
};

/// The number that a word of one to nineteen digits is.
fn number_of(word: &[u8]) -> Option<u64> {
    if word.is_empty() || word.len() > 19 {
        return None;
    }
    let mut number = 0u64;
    for digit in word {
        if *digit < b'0' || *digit > b'9' {
            return None;
        }
        number = number
            .wrapping_mul(10)
            .wrapping_add(u64::from(digit.wrapping_sub(b'0')));
    }
    Some(number)
}

/// The number from 1 to 8 that a word is.
fn few_of(word: &[u8]) -> Option<u8> {
    match number_of(word)? {
        1 => Some(1),
        2 => Some(2),
        3 => Some(3),
        4 => Some(4),
        5 => Some(5),
        6 => Some(6),
        7 => Some(7),
        8 => Some(8),
        _ => None,
    }
}

fn yes_or_no(word: &[u8]) -> Option<bool> {
    if word == b"yes".as_slice() {
        Some(true)
    } else if word == b"no".as_slice() {
        Some(false)
    } else {
        None
    }
}

/// What is asked for, with one more number, by its name.
fn with_number(asked: Asked, name: &[u8], value: &[u8]) -> Option<Asked> {
    let mut asked = asked;
    if name == b"--from".as_slice() {
        asked.from = number_of(value)?;
    } else if name == b"--repos".as_slice() {
        let repos = few_of(value)?;
        asked.bounds.repos = repos;
        asked.options.repos = repos;
    } else if name == b"--clients".as_slice() {
        asked.bounds.clients = few_of(value)?;
    } else if name == b"--items".as_slice() {
        asked.bounds.items = few_of(value)?;
    } else if name == b"--tries".as_slice() {
        asked.options.tries = u8::try_from(number_of(value)?).ok()?;
    } else if name == b"--cache".as_slice() {
        asked.options.cache = u16::try_from(number_of(value)?).ok()?;
    } else if name == b"--mob".as_slice() {
        asked.options.mob = u32::try_from(number_of(value)?).ok()?;
    } else {
        return None;
    }
    Some(asked)
}

/// What is asked for, with one more choice, by its name.
fn with_choice(asked: Asked, name: &[u8], value: bool) -> Option<Asked> {
    let mut asked = asked;
    if name == b"--shrink".as_slice() {
        asked.shrinks = value;
    } else if name == b"--tables".as_slice() {
        asked.tables = value;
    } else if name == b"--scripts".as_slice() {
        asked.scripts = value;
    } else if name == b"--own".as_slice() {
        asked.is_own = value;
    } else {
        return None;
    }
    Some(asked)
}

/// What is asked for, with one more option, by its name and its value.
fn with_option(asked: Asked, name: &[u8], value: &[u8]) -> Option<Asked> {
    match yes_or_no(value) {
        Some(value) => with_choice(asked, name, value),
        None => with_number(asked, name, value),
    }
}

/// What is asked for, with the options behind seed and count.
fn with_options(asked: Asked, words: &[Text]) -> Option<Asked> {
    let mut asked = asked;
    for pair in words.chunks(2) {
        match pair {
            [name, value] => asked = with_option(asked, name.as_slice(), value.as_slice())?,
            _ => return None,
        }
    }
    Some(asked)
}

/// What words ask for: a seed, how many runs, and options.
pub fn read_words(words: &[Text]) -> Option<Asked> {
    match words {
        [] => Some(USUAL),
        [seed, count, options @ ..] => {
            let asked = Asked {
                seed: number_of(seed.as_slice())?,
                count: number_of(count.as_slice())?,
                tables: true,
                ..USUAL
            };
            with_options(asked, options)
        }
        _ => None,
    }
}
