//! Which event a name means.

ghost use Rattle.std.specs.Prelude.{◌≡◌};
ghost use Rattle.schedule.specs.Kinds.{alone_by, pair_by, alone, pair};

use crate::events::EventKind;
use crate::numbers::number_of;

/// A letter and a number.
fn alone_by(letter: u8, number: Option<u32>) -> EventKind
    ensures { result ≡ alone_by letter number }
{
    match number {
        None => EventKind::Unknown,
        Some(n) => {
            if letter == b's' {
                EventKind::Step { client: n }
            } else if letter == b'f' {
                EventKind::Flush { repo: n }
            } else if letter == b'k' {
                EventKind::Checkpoint { repo: n }
            } else if letter == b'q' {
                EventKind::Settle { repo: n }
            } else {
                EventKind::Unknown
            }
        }
    }
}

/// A letter, a number, and a number behind a point.
fn pair_by(letter: u8, first: Option<u32>, second: Option<u32>) -> EventKind
    ensures { result ≡ pair_by letter first second }
{
    match first {
        None => EventKind::Unknown,
        Some(n) => match second {
            None => EventKind::Unknown,
            Some(m) => {
                if letter == b'd' {
                    EventKind::Deliver { client: n, repo: m }
                } else if letter == b'x' {
                    EventKind::Stop { repo: n, calls: m }
                } else if letter == b'c' {
                    EventKind::Restart { repo: n, pick: m }
                } else {
                    EventKind::Unknown
                }
            }
        },
    }
}

/// What a name alone means.
pub fn alone(name: &[u8]) -> EventKind
    ensures { result ≡ alone name.now }
{
    match name.split_first() {
        None => EventKind::Unknown,
        Some((letter, digits)) => alone_by(*letter, number_of(digits)),
    }
}

/// What a name means with a number behind it.
pub fn pair(name: &[u8], number: &[u8]) -> EventKind
    ensures { result ≡ pair name.now number.now }
{
    match name.split_first() {
        None => EventKind::Unknown,
        Some((letter, digits)) => pair_by(*letter, number_of(digits), number_of(number)),
    }
}
