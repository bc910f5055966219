//! Whether bytes spell an object that is there already, which takes no memory.

ghost use Rattle.std.specs.Prelude.{◌≡◌, ◌++◌, All, true, IfSome, IsTrue};
ghost use Rattle.std.specs.List.{flat_map};
ghost use Rattle.std.specs.Option.{option_copied};
ghost use Rattle.thor_value.specs.Spelling.{OrefFits, ValueFits, value_bytes};
ghost use Rattle.thor_value.specs.declared.values.Value.TheVariants.{Ref as RefOf, Text as TextOf};
ghost use Rattle.thor_value.specs.Words.{fits_word};
ghost use Rattle.client_cache.specs.Placing.{IsObject};

use thor_value::{Obj, Oref, PAGES, REPOSITORIES, SLOTS, Value, Word};

/// The most fields of an object.
const MOST_FIELDS: usize = 32;

/// Whether the bytes are this object, from the first to the last.
#[tactic(auto, using(std::proofs::lemmas::List::Elements::recursion_from_All))]
pub(crate) fn spells(bytes: &[u8], obj: &Obj) -> bool
    ensures { IsTrue result → IsObject bytes.now obj.now }
{
    let count = obj.fields.len();
    if count > MOST_FIELDS {
        return false;
    }
    let class = obj.class.to_be_bytes();
    let ver = obj.ver.to_be_bytes();
    let head = [
        class[0],
        class[1],
        ver[0],
        ver[1],
        ver[2],
        ver[3],
        count as u8,
    ];
    match behind(bytes, &head) {
        Some(rest) => spells_all(rest, obj.fields.as_slice()),
        None => false,
    }
}

/// Whether the bytes are these values one after the other, from the first to the last.
#[tactic(auto, using(std::proofs::Common::append_assoc))]
fn spells_all(bytes: &[u8], values: &[Value]) -> bool
    ensures spelled { IsTrue result → bytes.now ≡ flat_map value_bytes values.now }
    ensures fit { IsTrue result → All ValueFits values.now }
{
    let mut rest = bytes;
    for value in values {
        match behind_value(rest, value) {
            Some(after) => rest = after,
            None => return false,
        }
    }
    rest.is_empty()
}

/// What is behind a value at the front; nothing where another one is there.
fn behind_value<'a>(bytes: &'a [u8], value: &Value) -> Option<&'a [u8]>
    ensures { IfSome (option_copied result) (λ rest. (bytes.now ≡ value_bytes value.now ++ rest) × ValueFits value.now) }
{
    match value {
        Value::Int(number) => {
            let n = number.cast_unsigned().to_be_bytes();
            behind(bytes, &[1, n[0], n[1], n[2], n[3], n[4], n[5], n[6], n[7]])
        }
        Value::Ref(o) => behind_ref(bytes, *o),
        Value::Null => behind(bytes, &[3]),
        Value::Text(word) => behind_text(bytes, *word),
    }
}

/// What is behind a reference to this name at the front.
fn behind_ref<'a>(bytes: &'a [u8], o: Oref) -> Option<&'a [u8]>
    ensures { IfSome (option_copied result) (λ rest. (bytes.now ≡ value_bytes (RefOf o) ++ rest) × OrefFits o) }
{
    if o.repo >= REPOSITORIES || o.page >= PAGES || o.slot >= SLOTS {
        return None;
    }
    let page = o.page.to_be_bytes();
    behind(
        bytes,
        &[2, o.repo, page[0], page[1], page[2], page[3], o.slot],
    )
}

/// What is behind this text at the front.
fn behind_text<'a>(bytes: &'a [u8], word: Word) -> Option<&'a [u8]>
    ensures { IfSome (option_copied result) (λ rest. (bytes.now ≡ value_bytes (TextOf word) ++ rest) × (fits_word word ≡ true)) }
{
    match behind(bytes, &[4, word.len()]) {
        Some(rest) => behind(rest, word.bytes()),
        None => None,
    }
}

/// What is behind these bytes at the front; nothing where others are there.
fn behind<'a>(bytes: &'a [u8], front: &[u8]) -> Option<&'a [u8]>
    ensures { IfSome (option_copied result) (λ rest. bytes.now ≡ front.now ++ rest) }
{
    if bytes.len() < front.len() {
        return None;
    }
    let (first, rest) = bytes.split_at(front.len());
    if first == front { Some(rest) } else { None }
}
