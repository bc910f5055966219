//! Reading and spelling the bodies of records.

ghost use Rattle.std.specs.Prelude.{Some, ◌≡◌, ◌++◌, ◌∷◌, ◌<◌, ◌^◌, length, IfOk, OnOk, IsErrOf, Ok, Err};
ghost use Rattle.log_entries.specs.RequestForm.{RequestFits};
ghost use Rattle.log_codec.specs.Format.{Answered, Gives, IsSpelled, u32_format, value_of};
ghost use Rattle.log_codec.specs.Grammar.{BodyFits, body_format, flag_format, request_format, ts_format};
ghost use Rattle.log_codec.specs.declared.body.Body.{Body as ABody};
ghost use Rattle.log_codec.specs.declared.body.Body.TheVariants.{Entry as AnEntry, Installed as AnInstalled};
ghost use Rattle.log_codec.specs.declared.fault.BodyFault.TheVariants.{NotOne};

use crate::body::Body;
use crate::fault::BodyFault;
use crate::parts::read_bit;
use crate::spelled::Spelled;
use crate::wholes::{empty_text, read_whole, short_text};
use log_entries::{Entry, Request};
use std::alloc::Global;
use thor_value::{NoMemory, Text, Ts};

/// Reads the body of a record. `NotOne` comes exactly where the bytes, from the first to the last, spell
/// none; each body has one spelling.
pub fn read_body(alloc: Global, bytes: &[u8]) -> Result<Body, BodyFault>
    ensures found { IfOk result (λ body. IsSpelled body_format bytes.now body) }
    ensures only { (body : ABody) → IsSpelled body_format bytes.now body → Answered result (Ok body) }
    ensures not_one { IsErrOf result NotOne → (body : ABody) → ¬ IsSpelled body_format bytes.now body }
    ensures not_one_only { ((body : ABody) → ¬ IsSpelled body_format bytes.now body) → Answered result (Err NotOne) }
    ensures exact { Gives (λ body. body) result (value_of body_format bytes.now) }
{
    read_whole::<Body>(alloc, bytes)
}

impl Spelled for Body {
    ghost use Rattle.log_codec.specs.Grammar.{body_format};

    ghost format = { body_format };

    #[tactic(auto, unfolding(crate::specs::Grammar::body_format))]
    fn read(alloc: Global, bytes: &[u8]) -> Result<(Body, &[u8]), BodyFault> {
        let (number, rest) = u8::read(alloc, bytes)?;
        match number {
            1 => {
                let (life, rest) = u32::read(alloc, rest)?;
                Ok((Body::Entry(Entry::Life { life }), rest))
            }
            2 => {
                let (request, rest) = Request::read(alloc, rest)?;
                Ok((Body::Entry(Entry::One { request }), rest))
            }
            3 => {
                let (request, rest) = Request::read(alloc, rest)?;
                Ok((Body::Entry(Entry::Prepared { request }), rest))
            }
            4 => {
                let ((tx, commit), rest) = <(Ts, bool)>::read(alloc, rest)?;
                Ok((Body::Entry(Entry::Decided { tx, commit }), rest))
            }
            5 => {
                let ((tx, commit), rest) = <(Ts, bool)>::read(alloc, rest)?;
                Ok((Body::Entry(Entry::Finished { tx, commit }), rest))
            }
            6 => {
                let (page, rest) = u32::read(alloc, rest)?;
                let (side, rest) = read_bit(alloc, rest)?;
                Ok((Body::Installed { page, side }, rest))
            }
            7 => {
                let (request, rest) = Request::read(alloc, rest)?;
                Ok((Body::Entry(Entry::Upgraded { request }), rest))
            }
            _ => Err(BodyFault::NotOne),
        }
    }

    fn put(&self, out: &mut Text) -> Result<(), NoMemory> {
        match self {
            Body::Entry(entry) => put_entry(entry, out),
            Body::Installed { page, side } => put_installed(*page, *side, out),
        }
    }
}

/// Puts the one spelling of a record's body with this entry. After `NoMemory` a part of it may stand there.
#[tactic(auto, unfolding(crate::specs::Grammar::body_format), using(std::proofs::Common::append_assoc))]
fn put_entry(entry: &Entry, out: &mut Text) -> Result<(), NoMemory>
    requires { BodyFits (AnEntry entry.now) }
    ensures { OnOk result (out.new ≡ out.old ++ body_format.spelling (AnEntry entry.now)) }
{
    match entry {
        Entry::Life { life } => put_life(*life, out),
        Entry::One { request } => put_request(2, request, out),
        Entry::Prepared { request } => put_request(3, request, out),
        Entry::Decided { tx, commit } => put_verdict(4, *tx, *commit, out),
        Entry::Finished { tx, commit } => put_verdict(5, *tx, *commit, out),
        Entry::Upgraded { request } => put_request(7, request, out),
    }
}

fn put_life(life: u32, out: &mut Text) -> Result<(), NoMemory>
    ensures { OnOk result (out.new ≡ out.old ++ 1 ∷ u32_format.spelling life) }
{
    out.push(1)?;
    life.put(out)
}

#[tactic(auto, using(std::proofs::Common::append_assoc, crate::proofs::Grammars::request_spells))]
fn put_request(number: u8, request: &Request, out: &mut Text) -> Result<(), NoMemory>
    requires { RequestFits request.now }
    ensures { OnOk result (out.new ≡ out.old ++ number ∷ request_format.spelling request.now) }
{
    out.push(number)?;
    request.put(out)
}

fn put_verdict(number: u8, tx: Ts, commit: bool, out: &mut Text) -> Result<(), NoMemory>
    requires { ts_format.Fits tx }
    ensures { OnOk result (out.new ≡ out.old ++ number ∷ (ts_format.spelling tx ++ flag_format.spelling commit)) }
{
    out.push(number)?;
    tx.put(out)?;
    commit.put(out)
}

/// Puts the one spelling of a record's body that says that a page's side is in use. After `NoMemory` a part
/// of it may stand there.
#[tactic(auto, unfolding(crate::specs::Grammar::body_format), using(std::proofs::Common::append_assoc))]
fn put_installed(page: u32, side: u8, out: &mut Text) -> Result<(), NoMemory>
    requires { side < 2 }
    ensures { OnOk result (out.new ≡ out.old ++ body_format.spelling (AnInstalled page side)) }
{
    out.push(6)?;
    page.put(out)?;
    side.put(out)
}

/// Spells the body of a record with an entry. Want of memory also where it is longer than a `u32` can tell.
pub fn spell_entry(alloc: Global, entry: &Entry) -> Result<Text, NoMemory>
    requires { BodyFits (AnEntry entry.now) }
    ensures spelled { IfOk result (λ put. IsSpelled body_format put (AnEntry entry.now)) }
    ensures read { IfOk result (λ put. value_of body_format put ≡ Some (AnEntry entry.now)) }
    ensures short { IfOk result (λ put. length put < 2 ^ 32) }
{
    let mut put = empty_text(alloc, entry_room(entry))?;
    put_entry(entry, &mut put)?;
    short_text(put)
}

/// About how many bytes the spelling of an entry takes.
fn entry_room(entry: &Entry) -> usize {
    match entry {
        Entry::One { request } | Entry::Prepared { request } | Entry::Upgraded { request } => {
            request_room(request)
        }
        _ => 16,
    }
}

/// About how many bytes the spelling of a request takes.
fn request_room(request: &Request) -> usize {
    let names = request.ros.len().saturating_add(request.fresh.len());
    let objects = request.writes.len().saturating_mul(48);
    names
        .saturating_mul(8)
        .saturating_add(objects)
        .saturating_add(80)
}

/// Spells the body of a record that says that a page's side is in use.
pub fn spell_installed(alloc: Global, page: u32, side: u8) -> Result<Text, NoMemory>
    requires { side < 2 }
    ensures spelled { IfOk result (λ put. IsSpelled body_format put (AnInstalled page side)) }
    ensures read { IfOk result (λ put. value_of body_format put ≡ Some (AnInstalled page side)) }
    ensures short { IfOk result (λ put. length put < 2 ^ 32) }
{
    let mut put = Text::new(alloc);
    put_installed(page, side, &mut put)?;
    short_text(put)
}
