//! The words of the language.

ghost use Rattle.std.specs.Prelude.{◌≡◌};
ghost use Rattle.std.specs.List.{list_any};
ghost use Rattle.std.specs.Str.{bytes_eq};
ghost use Rattle.script_text.specs.Words.{is_keyword};

/// The words that are no names.
const KEYWORDS: &[&[u8]] = &[
    b"setup",
    b"free",
    b"part",
    b"class",
    b"int",
    b"method",
    b"var",
    b"if",
    b"else",
    b"while",
    b"return",
    b"print",
    b"new",
    b"at",
    b"null",
    b"this",
    b"root",
    b"client",
    b"tx",
    b"upgrade",
    b"old",
    b"schedule",
];

/// Whether a word is one of the words.
fn is_among(words: &[&[u8]], word: &[u8]) -> bool
    ensures { result ≡ list_any (λ w. bytes_eq w.now word.now) words.now }
{
    words.iter().any(|w| *w == word)
}

/// Whether a word is one of those that are no names. It looks at those with the same first letter.
pub fn is_keyword(word: &[u8]) -> bool
    ensures { result ≡ is_keyword word.now }
{
    match word {
        [b's', ..] => is_among(&[b"setup".as_slice(), b"schedule".as_slice()], word),
        [b'f', ..] => is_among(&[b"free".as_slice()], word),
        [b'p', ..] => is_among(&[b"part".as_slice(), b"print".as_slice()], word),
        [b'c', ..] => is_among(&[b"class".as_slice(), b"client".as_slice()], word),
        [b'i', ..] => is_among(&[b"int".as_slice(), b"if".as_slice()], word),
        [b'm', ..] => is_among(&[b"method".as_slice()], word),
        [b'v', ..] => is_among(&[b"var".as_slice()], word),
        [b'e', ..] => is_among(&[b"else".as_slice()], word),
        [b'w', ..] => is_among(&[b"while".as_slice()], word),
        [b'r', ..] => is_among(&[b"return".as_slice(), b"root".as_slice()], word),
        [b'n', ..] => is_among(&[b"new".as_slice(), b"null".as_slice()], word),
        [b'a', ..] => is_among(&[b"at".as_slice()], word),
        [b't', ..] => is_among(&[b"this".as_slice(), b"tx".as_slice()], word),
        [b'u', ..] => is_among(&[b"upgrade".as_slice()], word),
        [b'o', ..] => is_among(&[b"old".as_slice()], word),
        _ => is_among(KEYWORDS, word),
    }
}
