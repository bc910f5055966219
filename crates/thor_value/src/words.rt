//! Texts that fields hold.

ghost use Rattle.std.specs.Prelude.{◌≡◌, ◌≤◌, [], length, true, nat_eq, IsTrue};
ghost use Rattle.std.specs.List.{list_all};
ghost use Rattle.std.specs.Str.{bytes_eq};
ghost use Rattle.std.specs.Cmp.{on_equiv, on_per, partial_equiv_from_equiv};
ghost use Rattle.std.specs.Cmp.Lexicographic.{pointwise, nat_list_eq_equiv};
ghost use Rattle.thor_value.specs.Words.{fits_word, is_text_byte, last_byte, padded, word_from};

use std::fmt;
use std::marker::Model;

/// The most bytes of a text.
pub const WORD_BYTES: usize = 32;

/// A text that a field, a local or an expression holds: at most 32 bytes, each from 32 to 126 and none of them 34. It
/// is copied like a number, and contracts see it as the list of its bytes.
#[derive(Clone, Copy)]
pub struct Word {
    room: [u8; 32],
    len: u8,
}

impl Model for Word {
    ghost use Rattle.std.proofs.Common.{sym};
    ghost use Rattle.std.specs.Prelude.{ℕ, List, length};
    ghost use Rattle.std.specs.Coded.{coded_list, coded_ℕ};

    ghost Value = { List ℕ };

    ghost coded = { coded_list coded_ℕ };

    ghost use Rattle.thor_value.specs.Words.{IsPadded, bytes_in, padded};

    ghost view = { bytes_in };

    ghost invariant = { IsPadded };

    ghost inverse = { λ bytes. record { room = padded bytes; len = length bytes } };

    ghost inverse_ok = { λ w h i. record { room = sym h.room i; len = sym h.len i } };
}

impl Word {
    /// The text of no byte.
    pub fn empty() -> Word
        ensures { result ≡ [] }
    {
        padded(&[])
    }

    /// Whether it is this text.
    pub fn is(&self, other: &Word) -> bool
        ensures { result ≡ bytes_eq self.now other.now }
    {
        *self == *other
    }

    /// The text that bytes are, or `None` where they are none: where they are more than 32, or one of them is below 32,
    /// above 126 or 34.
    pub fn new(bytes: &[u8]) -> Option<Word>
        ensures { result ≡ word_from bytes.now }
    {
        if fits_word(bytes) {
            Some(padded(bytes))
        } else {
            None
        }
    }

    /// Its bytes.
    pub fn bytes(&self) -> &[u8]
        ensures bytes { result.now ≡ self.now }
        ensures word { fits_word self.now ≡ true }
    {
        self.room.split_at(self.len as usize).0
    }

    /// How many bytes it has, at most 32.
    pub fn len(&self) -> u8
        ensures len { result ≡ length self.now }
        ensures few { result ≤ 32 }
    {
        self.len
    }

    /// Its last byte, or 0 where it has none.
    fn last(&self) -> u8
        ensures { result ≡ last_byte self.now }
    {
        match self.bytes().last() {
            Some(byte) => *byte,
            None => 0,
        }
    }
}

/// Two texts are equal where their bytes are. Texts that aren't equal mostly differ in their lengths or last bytes, so these
/// are compared first.
impl PartialEq for Word {
    ghost eq = { λ a b. pointwise nat_eq a b };

    ghost laws = { on_per (λ a. a) (partial_equiv_from_equiv nat_list_eq_equiv) };

    #[tactic(auto, using(crate::proofs::WordsCompared::compared))]
    fn eq(&self, other: &Word) -> bool {
        if self.len != other.len {
            return false;
        }
        if self.last() != other.last() {
            return false;
        }
        self.bytes() == other.bytes()
    }
}

impl Eq for Word {
    ghost laws = { on_equiv (λ a. a) nat_list_eq_equiv };
}

impl fmt::Debug for Word {
    fn fmt<W: fmt::Write>(&self, f: &mut fmt::Formatter<W>) -> fmt::Result {
        fmt::Debug::fmt(&self.bytes(), f)
    }
}

/// Whether a text can have the byte: it is from 32 to 126, and not 34.
pub fn is_text_byte(byte: u8) -> bool
    ensures { result ≡ is_text_byte byte }
{
    byte >= 32 && byte <= 126 && byte != 34
}

fn are_text_bytes(bytes: &[u8]) -> bool
    ensures { result ≡ list_all is_text_byte bytes.now }
{
    bytes.iter().all(|byte| is_text_byte(*byte))
}

/// Whether bytes are those of a text.
fn fits_word(bytes: &[u8]) -> bool
    ensures value { result ≡ fits_word bytes.now }
    ensures few { IsTrue result → length bytes.now ≤ 32 }
{
    if bytes.len() > WORD_BYTES {
        return false;
    }
    are_text_bytes(bytes)
}

/// The text of these bytes.
fn padded(bytes: &[u8]) -> Word
    requires few { length bytes.now ≤ 32 }
    requires word { fits_word bytes.now ≡ true }
    ensures { result ≡ bytes.now }
{
    Word {
        room: room_of(bytes),
        len: bytes.len() as u8,
    }
}

/// Bytes in their room, with zeros behind them.
#[tactic(auto, using(crate::proofs::TextBytes::room_rest))]
fn room_of(bytes: &[u8]) -> [u8; 32]
    requires { length bytes.now ≤ 32 }
    ensures { result ≡ padded bytes.now }
{
    let mut room = [0; 32];
    let (front, _) = room.split_at_mut(bytes.len());
    front.copy_from_slice(bytes);
    room
}
