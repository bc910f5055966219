//! How far a text goes on with bytes of one kind.

ghost use Rattle.std.specs.Prelude.{◌≡◌, ◌≤◌, length, not};
ghost use Rattle.std.specs.List.{prefix_len};
ghost use Rattle.thor_value.specs.Words.{is_text_byte};
ghost use Rattle.script_text.specs.Bytes.{is_newline, is_separator, is_word_byte, is_digit};

use thor_value::is_text_byte;

pub fn is_separator(byte: u8) -> bool
    ensures { result ≡ is_separator byte }
{
    byte == b'\t' || byte == b'\n' || byte == b'\r' || byte == b' '
}

fn is_word_byte(byte: u8) -> bool
    ensures { result ≡ is_word_byte byte }
{
    byte.is_ascii_alphabetic() || byte.is_ascii_digit() || byte == b'_'
}

/// How many bytes of a word the text begins with.
#[tactic(auto, using(crate::proofs::Digits::prefix_within))]
pub fn word_length(text: &[u8]) -> usize
    ensures length { result ≡ prefix_len is_word_byte text.now }
    ensures within { result ≤ length text.now }
{
    text.iter().take_while(|byte| is_word_byte(**byte)).count()
}

/// How many digits the text begins with.
#[tactic(auto, using(crate::proofs::Digits::prefix_within))]
pub fn digits_length(text: &[u8]) -> usize
    ensures length { result ≡ prefix_len is_digit text.now }
    ensures within { result ≤ length text.now }
{
    text.iter().take_while(|byte| byte.is_ascii_digit()).count()
}

/// How many bytes that a text literal can have the text begins with.
#[tactic(auto, using(crate::proofs::Digits::prefix_within))]
pub fn literal_length(text: &[u8]) -> usize
    ensures length { result ≡ prefix_len is_text_byte text.now }
    ensures within { result ≤ length text.now }
{
    text.iter().take_while(|byte| is_text_byte(**byte)).count()
}

/// How many bytes the text has before the end of its line.
#[tactic(auto, using(crate::proofs::Digits::prefix_within))]
pub fn line_length(text: &[u8]) -> usize
    ensures length { result ≡ prefix_len (λ byte. not (is_newline byte)) text.now }
    ensures within { result ≤ length text.now }
{
    text.iter().take_while(|byte| **byte != b'\n').count()
}
