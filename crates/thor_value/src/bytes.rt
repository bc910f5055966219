//! The bytes of names, timestamps and values: one spelling for each, read and written exactly.

ghost use Rattle.std.specs.Prelude.{◌≡◌, ◌↔◌, ℕ, List, ◌++◌, length, take, Ok, IfOk, OnOk, OnErr, IsErrOf, if◌then◌else◌};
ghost use Rattle.std.specs.Int.{w16, w32, w64};
ghost use Rattle.thor_value.specs.Formats.{AreApart, BeginsOne, BeginsWithOne, Counts, Gives, IsAtFront};
ghost use Rattle.thor_value.specs.Spelling.{NameFits, OrefFits, TsFits, ValueFits, oref_bytes, ts_bytes, value_bytes};
ghost use Rattle.thor_value.specs.declared.values.Value.TheVariants.{Text as TextOf};
ghost use Rattle.thor_value.specs.Words.{fits_word};
ghost use Rattle.thor_value.specs.Reading.{behind_tag, below_at, word_bytes_at, number_at, oref_at, page_at, tag_at, time_at, ts_at, value_at, word_at};

use crate::lists::Text;
use crate::memory::NoMemory;
use crate::names::{Oref, Ts};
use crate::values::Value;
use crate::words::Word;
use std::error::Error;
use std::fmt;

/// Why nothing stands at the front of some bytes.
#[derive(Clone, Copy, Debug, PartialEq, Eq)]
pub enum ReadFault {
    /// The bytes begin a spelling and end before it does.
    Short,
    /// The bytes neither begin with a spelling nor begin one.
    BadTag,
}

impl fmt::Display for ReadFault {
    fn fmt<W: fmt::Write>(&self, f: &mut fmt::Formatter<W>) -> fmt::Result {
        match self {
            ReadFault::Short => write!(f, "the bytes end too early"),
            ReadFault::BadTag => write!(f, "the bytes are none of the format"),
        }
    }
}

impl Error for ReadFault {}

/// Reads the name at the front, and answers how many bytes it takes. Bytes may follow it.
pub fn read_oref(bytes: &[u8]) -> Result<(Oref, usize), ReadFault>
    ensures found { IfOk result (λ read. IsAtFront OrefFits oref_bytes bytes.now read.0 read.1) }
    ensures only { (o : Oref) (rest : List ℕ) → OrefFits o → bytes.now ≡ oref_bytes o ++ rest → result ≡ Ok (o, length (oref_bytes o)) }
    ensures short { IsErrOf result ReadFault.Short ↔ BeginsOne OrefFits oref_bytes bytes.now }
    ensures bad_tag { IsErrOf result ReadFault.BadTag ↔ ((¬ BeginsWithOne OrefFits oref_bytes bytes.now) × (¬ BeginsOne OrefFits oref_bytes bytes.now)) }
    ensures exact { Counts bytes.now result (oref_at bytes.now) }
{
    counted_oref(bytes)
}

/// Reads the timestamp at the front, and answers how many bytes it takes. Bytes may follow it.
pub fn read_ts(bytes: &[u8]) -> Result<(Ts, usize), ReadFault>
    ensures found { IfOk result (λ read. IsAtFront TsFits ts_bytes bytes.now read.0 read.1) }
    ensures only { (t : Ts) (rest : List ℕ) → TsFits t → bytes.now ≡ ts_bytes t ++ rest → result ≡ Ok (t, length (ts_bytes t)) }
    ensures short { IsErrOf result ReadFault.Short ↔ BeginsOne TsFits ts_bytes bytes.now }
    ensures bad_tag { IsErrOf result ReadFault.BadTag ↔ ((¬ BeginsWithOne TsFits ts_bytes bytes.now) × (¬ BeginsOne TsFits ts_bytes bytes.now)) }
    ensures exact { Counts bytes.now result (ts_at bytes.now) }
{
    counted_ts(bytes)
}

/// Reads the value at the front, and answers how many bytes it takes. Bytes may follow it.
pub fn read_value(bytes: &[u8]) -> Result<(Value, usize), ReadFault>
    ensures found { IfOk result (λ read. IsAtFront ValueFits value_bytes bytes.now read.0 read.1) }
    ensures only { (v : Value) (rest : List ℕ) → ValueFits v → bytes.now ≡ value_bytes v ++ rest → result ≡ Ok (v, length (value_bytes v)) }
    ensures short { IsErrOf result ReadFault.Short ↔ BeginsOne ValueFits value_bytes bytes.now }
    ensures bad_tag { IsErrOf result ReadFault.BadTag ↔ ((¬ BeginsWithOne ValueFits value_bytes bytes.now) × (¬ BeginsOne ValueFits value_bytes bytes.now)) }
    ensures exact { Counts bytes.now result (value_at bytes.now) }
{
    counted_value(bytes)
}

/// Puts the one spelling of a name behind the last byte. After `NoMemory` the text is as it was.
pub fn put_oref(o: Oref, out: &mut Text) -> Result<(), NoMemory>
    requires { OrefFits o }
    ensures ok { OnOk result (out.new ≡ out.old ++ oref_bytes o) }
    ensures err { OnErr result (out.new ≡ out.old) }
{
    let page = o.page.to_be_bytes();
    out.extend_from_slice(&[o.repo, page[0], page[1], page[2], page[3], o.slot])
}

/// Puts the one spelling of a timestamp behind the last byte. After `NoMemory` the text is as it was.
pub fn put_ts(t: Ts, out: &mut Text) -> Result<(), NoMemory>
    requires { TsFits t }
    ensures ok { OnOk result (out.new ≡ out.old ++ ts_bytes t) }
    ensures err { OnErr result (out.new ≡ out.old) }
{
    let time = t.time.to_be_bytes();
    let life = t.life.to_be_bytes();
    out.extend_from_slice(&[
        time[0], time[1], time[2], time[3], time[4], time[5], time[6], time[7], t.repo, life[0],
        life[1], life[2], life[3],
    ])
}

/// Puts the one spelling of a value behind the last byte. After `NoMemory` the text is as it was.
pub fn put_value(v: Value, out: &mut Text) -> Result<(), NoMemory>
    requires { NameFits v }
    ensures ok { OnOk result (out.new ≡ out.old ++ value_bytes v) }
    ensures err { OnErr result (out.new ≡ out.old) }
{
    match v {
        Value::Int(number) => {
            let n = number.cast_unsigned().to_be_bytes();
            out.extend_from_slice(&[1, n[0], n[1], n[2], n[3], n[4], n[5], n[6], n[7]])
        }
        Value::Ref(o) => {
            let page = o.page.to_be_bytes();
            out.extend_from_slice(&[2, o.repo, page[0], page[1], page[2], page[3], o.slot])
        }
        Value::Null => out.extend_from_slice(&[3]),
        Value::Text(word) => put_word(word, out),
    }
}

/// Puts the one spelling of a text behind the last byte. After `NoMemory` the bytes are as they were.
fn put_word(word: Word, out: &mut Text) -> Result<(), NoMemory>
    ensures ok { OnOk result (out.new ≡ out.old ++ value_bytes (TextOf word)) }
    ensures err { OnErr result (out.new ≡ out.old) }
{
    let before = out.len();
    let put = put_parts(word, out);
    if put.is_err() {
        out.truncate(before);
    }
    put
}

/// Puts the parts of a text one after the other. After `NoMemory` some of them may stand there.
fn put_parts(word: Word, out: &mut Text) -> Result<(), NoMemory>
    ensures ok { OnOk result (out.new ≡ out.old ++ value_bytes (TextOf word)) }
    ensures err { OnErr result (take (length out.old) out.new ≡ out.old) }
{
    out.extend_from_slice(&[4, word.len()])?;
    out.extend_from_slice(word.bytes())
}

/// No spelling begins another, so whatever follows one is told apart from it.
pub fn spellings_are_apart()
    ensures orefs { AreApart OrefFits oref_bytes }
    ensures timestamps { AreApart TsFits ts_bytes }
    ensures values { AreApart ValueFits value_bytes }
{}

fn counted_oref(bytes: &[u8]) -> Result<(Oref, usize), ReadFault>
    ensures { Counts bytes.now result (oref_at bytes.now) }
{
    let (oref, rest) = oref_of(bytes)?;
    Ok((oref, bytes.len() - rest.len()))
}

fn counted_ts(bytes: &[u8]) -> Result<(Ts, usize), ReadFault>
    ensures { Counts bytes.now result (ts_at bytes.now) }
{
    let (ts, rest) = ts_of(bytes)?;
    Ok((ts, bytes.len() - rest.len()))
}

fn counted_value(bytes: &[u8]) -> Result<(Value, usize), ReadFault>
    ensures { Counts bytes.now result (value_at bytes.now) }
{
    match value_of(bytes) {
        Ok((value, rest)) => Ok((value, bytes.len() - rest.len())),
        Err(fault) => Err(fault),
    }
}

#[tactic(auto, unfolding(crate::specs::Reading::oref_at))]
fn oref_of(bytes: &[u8]) -> Result<(Oref, &[u8]), ReadFault>
    ensures { Gives (λ x. (x.0, x.1.now)) result (oref_at bytes.now) }
{
    let (repo, rest) = below_of(bytes, 8)?;
    let (page, rest) = page_of(rest)?;
    let (slot, rest) = below_of(rest, 12)?;
    Ok((Oref { repo, page, slot }, rest))
}

#[tactic(auto, unfolding(crate::specs::Reading::ts_at))]
fn ts_of(bytes: &[u8]) -> Result<(Ts, &[u8]), ReadFault>
    ensures { Gives (λ x. (x.0, x.1.now)) result (ts_at bytes.now) }
{
    let (time, rest) = time_of(bytes)?;
    let (repo, rest) = below_of(rest, 8)?;
    let (life, rest) = u32_of(rest)?;
    Ok((Ts { time, repo, life }, rest))
}

#[tactic(auto, unfolding(crate::specs::Reading::value_at))]
fn value_of(bytes: &[u8]) -> Result<(Value, &[u8]), ReadFault>
    ensures { Gives (λ x. (x.0, x.1.now)) result (value_at bytes.now) }
{
    let (tag, rest) = tag_of(bytes)?;
    behind(tag, rest)
}

#[tactic(auto, unfolding(crate::specs::Reading::behind_tag))]
fn behind(tag: u8, bytes: &[u8]) -> Result<(Value, &[u8]), ReadFault>
    ensures { Gives (λ x. (x.0, x.1.now)) result (behind_tag tag bytes.now) }
{
    match tag {
        0 => Err(ReadFault::BadTag),
        1 => {
            let (number, rest) = u64_of(bytes)?;
            Ok((Value::Int(number.cast_signed()), rest))
        }
        2 => {
            let (oref, rest) = oref_of(bytes)?;
            Ok((Value::Ref(oref), rest))
        }
        3 => Ok((Value::Null, bytes)),
        _ => match word_of(bytes) {
            Ok((word, rest)) => Ok((Value::Text(word), rest)),
            Err(fault) => Err(fault),
        },
    }
}

#[tactic(auto, unfolding(crate::specs::Reading::word_at))]
fn word_of(bytes: &[u8]) -> Result<(Word, &[u8]), ReadFault>
    ensures { Gives (λ x. (x.0, x.1.now)) result (word_at bytes.now) }
{
    let (count, rest) = below_of(bytes, 33)?;
    word_bytes_of(count, rest)
}

#[tactic(auto, using(crate::proofs::TextBytes::word_cut, crate::proofs::TextBytes::word_there, crate::proofs::TextBytes::word_not_there))]
fn word_bytes_of(count: u8, bytes: &[u8]) -> Result<(Word, &[u8]), ReadFault>
    ensures { Gives (λ x. (x.0, x.1.now)) result (word_bytes_at count bytes.now) }
{
    let count = count as usize;
    if bytes.len() < count {
        return Err(cut_fault(bytes));
    }
    let (front, rest) = bytes.split_at(count);
    match Word::new(front) {
        Some(word) => Ok((word, rest)),
        None => Err(ReadFault::BadTag),
    }
}

/// What is wrong where the bytes of a text end too early.
fn cut_fault(bytes: &[u8]) -> ReadFault
    ensures { result ≡ if fits_word bytes.now then ReadFault.Short else ReadFault.BadTag }
{
    match Word::new(bytes) {
        Some(_) => ReadFault::Short,
        None => ReadFault::BadTag,
    }
}

fn tag_of(bytes: &[u8]) -> Result<(u8, &[u8]), ReadFault>
    ensures { Gives (λ x. (x.0, x.1.now)) result (tag_at bytes.now) }
{
    match bytes {
        [] => Err(ReadFault::Short),
        [tag, rest @ ..] => {
            if *tag >= 1 && *tag <= 4 {
                Ok((*tag, rest))
            } else {
                Err(ReadFault::BadTag)
            }
        }
    }
}

fn below_of(bytes: &[u8], limit: u8) -> Result<(u8, &[u8]), ReadFault>
    ensures { Gives (λ x. (x.0, x.1.now)) result (below_at limit bytes.now) }
{
    match bytes {
        [] => Err(ReadFault::Short),
        [byte, rest @ ..] => {
            if *byte < limit {
                Ok((*byte, rest))
            } else {
                Err(ReadFault::BadTag)
            }
        }
    }
}

#[tactic(auto, unfolding(crate::specs::Reading::page_at))]
fn page_of(bytes: &[u8]) -> Result<(u32, &[u8]), ReadFault>
    ensures { Gives (λ x. (x.0, x.1.now)) result (page_at bytes.now) }
{
    let (_, rest) = below_of(bytes, 1)?;
    let (_, rest) = below_of(rest, 1)?;
    let (page, rest) = u16_of(rest)?;
    Ok((page as u32, rest))
}

#[tactic(auto, unfolding(crate::specs::Reading::time_at))]
fn time_of(bytes: &[u8]) -> Result<(u64, &[u8]), ReadFault>
    ensures { Gives (λ x. (x.0, x.1.now)) result (time_at bytes.now) }
{
    let _ = below_of(bytes, 64)?;
    u64_of(bytes)
}

fn u16_of(bytes: &[u8]) -> Result<(u16, &[u8]), ReadFault>
    ensures { Gives (λ x. (x.0, x.1.now)) result (number_at ReadFault.Short w16 bytes.now) }
{
    if bytes.len() < 2 {
        return Err(ReadFault::Short);
    }
    let (front, rest) = bytes.split_at(2);
    Ok((u16::from_be_bytes([front[0], front[1]]), rest))
}

fn u32_of(bytes: &[u8]) -> Result<(u32, &[u8]), ReadFault>
    ensures { Gives (λ x. (x.0, x.1.now)) result (number_at ReadFault.Short w32 bytes.now) }
{
    if bytes.len() < 4 {
        return Err(ReadFault::Short);
    }
    let (front, rest) = bytes.split_at(4);
    let number = u32::from_be_bytes([front[0], front[1], front[2], front[3]]);
    Ok((number, rest))
}

fn u64_of(bytes: &[u8]) -> Result<(u64, &[u8]), ReadFault>
    ensures { Gives (λ x. (x.0, x.1.now)) result (number_at ReadFault.Short w64 bytes.now) }
{
    if bytes.len() < 8 {
        return Err(ReadFault::Short);
    }
    let (front, rest) = bytes.split_at(8);
    let number = u64::from_be_bytes([
        front[0], front[1], front[2], front[3], front[4], front[5], front[6], front[7],
    ]);
    Ok((number, rest))
}
