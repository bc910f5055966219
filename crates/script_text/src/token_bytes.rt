//! The bytes of a token, in place.

ghost use Rattle.std.specs.Prelude.{◌≡◌, ◌≤◌, length};
ghost use Rattle.script_text.specs.TokenTexts.{padded};

use std::fmt;
use std::marker::Model;

/// The bytes of a token, at most 34: a text literal of 32 bytes has two quotation marks. It is copied like a number, and
/// contracts see it as the list of its bytes.
#[derive(Clone, Copy)]
pub struct TokenText {
    room: [u8; 34],
    len: u8,
}

impl Model for TokenText {
    ghost use Rattle.std.proofs.Common.{sym};
    ghost use Rattle.std.specs.Prelude.{ℕ, List, length};
    ghost use Rattle.std.specs.Coded.{coded_list, coded_ℕ};

    ghost Value = { List ℕ };

    ghost coded = { coded_list coded_ℕ };

    ghost use Rattle.script_text.specs.TokenTexts.{IsPadded, bytes_in, padded};

    ghost view = { bytes_in };

    ghost invariant = { IsPadded };

    ghost inverse = { λ bytes. record { room = padded bytes; len = length bytes } };

    ghost inverse_ok = { λ t h i. record { room = sym h.room i; len = sym h.len i } };
}

impl TokenText {
    /// Its bytes.
    pub fn bytes(&self) -> &[u8]
        ensures { result.now ≡ self.now }
    {
        self.room.split_at(self.len as usize).0
    }
}

impl fmt::Debug for TokenText {
    fn fmt<W: fmt::Write>(&self, f: &mut fmt::Formatter<W>) -> fmt::Result {
        fmt::Debug::fmt(&self.bytes(), f)
    }
}

/// The token's bytes that these are.
pub fn token_text(bytes: &[u8]) -> TokenText
    requires { length bytes.now ≤ 34 }
    ensures { result ≡ bytes.now }
{
    TokenText {
        room: room_of(bytes),
        len: bytes.len() as u8,
    }
}

/// Bytes in their room, with zeros behind them.
#[tactic(auto, using(crate::proofs::TokenTexts::room_rest))]
fn room_of(bytes: &[u8]) -> [u8; 34]
    requires { length bytes.now ≤ 34 }
    ensures { result ≡ padded bytes.now }
{
    let mut room = [0; 34];
    let (front, _) = room.split_at_mut(bytes.len());
    front.copy_from_slice(bytes);
    room
}
