//! The form of requests, tested.

ghost use Rattle.std.specs.Int.{w64};
ghost use Rattle.std.specs.Ordering.{nat_cmp};
ghost use Rattle.std.specs.Prelude.{◌≡◌, ◌<◌, FitsSigned, IsTrue};
ghost use Rattle.std.specs.List.{AllByRecursion};
ghost use Rattle.log_entries.specs.RequestForm.{AnswerFits, IsWellFormed, RequestFits, WriteFits};
ghost use Rattle.commit_log.specs.Recovered.{are_of};
ghost use Rattle.log_codec.specs.Grammar.{is_above, rise};
ghost use Rattle.object_codec.specs.Spelling.{ObjFits};
ghost use Rattle.repo_core.specs.Calls.{MayRequest};
ghost use Rattle.std.specs.Map.{keys_of};
ghost use Rattle.thor_value.specs.Spelling.{OrefFits, TsFits, ValueFits};
ghost use Rattle.validation_queue.specs.Names.{IsInOrder};

use crate::repo::Repo;
use disk_trait::Parts;
use log_entries::Request;
use thor_value::{Answer, Obj, Oref, Ts, Value};
use validation_queue::is_in_order;

/// The fields that an object may have.
const FIELDS: usize = 32;

/// Whether a request has the form of those that a log can spell: its numbers are in their ranges, the names
/// that it read rise, so do those that it wrote, it read what it wrote, and the other repositories that take
/// part rise.
pub fn is_well_formed(request: &Request) -> bool
    ensures form { IsTrue result → IsWellFormed request.now }
    ensures in_order { IsTrue result → IsInOrder request.now.ros (keys_of request.now.writes) }
{
    if !is_in_order(&request.ros, &request.writes) {
        return false;
    }
    if !are_repos(request.others.as_slice()) {
        return false;
    }
    is_spelled(request)
}

/// Whether a request has a spelling.
fn is_spelled(request: &Request) -> bool
    ensures { IsTrue result → RequestFits request.now }
{
    let _index = request.who.index;
    let _session = request.session;
    let _epoch = request.epoch;
    let _upto = request.upto;
    if !is_stamp(request.tx) || !is_answer(&request.answer) {
        return false;
    }
    if !are_names(request.ros.as_slice()) || !are_names(request.fresh.as_slice()) {
        return false;
    }
    if !are_writes(request.writes.as_slice()) {
        return false;
    }
    request.others.len() <= 8 && repos_rise(request.others.as_slice())
}

impl<P: Parts> Repo<P> {
    /// Whether a request may be sent here: it has its form, speaks of this repository's objects, is none of a
    /// transaction that is known here, and has this repository alone for a participant, or this one and
    /// others.
    pub fn may_request(&self, request: &Request, alone: bool) -> bool
        ensures { IsTrue result → MayRequest self.now.held self.now.memory request.now alone }
    {
        is_well_formed(request)
            && are_of(self.number(), request.ros.as_slice())
            && are_written_of(self.number(), request.writes.as_slice())
            && request.others.is_empty() == alone
            && (!alone || request.tx.repo == self.number())
            && !self.knows(request.tx)
    }
}

fn is_stamp(ts: Ts) -> bool
    ensures { IsTrue result → TsFits ts }
{
    ts.time < 1 << 62 && ts.repo < 8
}

fn is_name(oref: Oref) -> bool
    ensures { IsTrue result → OrefFits oref }
{
    oref.repo < 8 && oref.page < 65_536 && oref.slot < 12
}

fn are_names(names: &[Oref]) -> bool
    ensures { IsTrue result → AllByRecursion OrefFits names.now }
{
    for name in names {
        if !is_name(*name) {
            return false;
        }
    }
    true
}

fn are_of(repo: u8, names: &[Oref]) -> bool {
    for name in names {
        if name.repo != repo {
            return false;
        }
    }
    true
}

/// Whether all objects that are written are of a repository.
fn are_written_of(repo: u8, writes: &[(Oref, Obj)]) -> bool
    ensures { result ≡ are_of repo writes.now }
{
    for write in writes {
        if write.0.repo != repo {
            return false;
        }
    }
    true
}

fn are_writes(writes: &[(Oref, Obj)]) -> bool
    ensures { IsTrue result → AllByRecursion WriteFits writes.now }
{
    for write in writes {
        if !is_name(write.0) || !is_object(&write.1) {
            return false;
        }
    }
    true
}

fn is_object(object: &Obj) -> bool
    ensures { IsTrue result → ObjFits object.now }
{
    let _class = object.class;
    let _ver = object.ver;
    object.fields.len() <= FIELDS && are_values(object.fields.as_slice())
}

fn are_values(values: &[Value]) -> bool
    ensures { IsTrue result → AllByRecursion ValueFits values.now }
{
    for value in values {
        if !is_value(*value) {
            return false;
        }
    }
    true
}

fn is_value(value: Value) -> bool
    ensures { IsTrue result → ValueFits value }
{
    match value {
        Value::Int(_) | Value::Null => true,
        Value::Ref(oref) => is_name(oref),
        Value::Text(word) => {
            let _bytes = word.bytes();
            true
        }
    }
}

/// Whether numbers have 64 bits, as each has.
fn are_numbers(numbers: &[i64]) -> bool
    ensures { IsTrue result → AllByRecursion (FitsSigned w64) numbers.now }
{
    for number in numbers {
        let _number = *number;
    }
    true
}

fn is_answer(answer: &Answer) -> bool
    ensures { IsTrue result → AnswerFits answer.now }
{
    match answer {
        Answer::Ints(numbers) => are_numbers(numbers.as_slice()),
        Answer::Fault(_) => true,
    }
}

/// Whether each is the number of a repository.
fn are_repos(repos: &[u8]) -> bool
    ensures { IsTrue result → AllByRecursion (λ r. r < 8) repos.now }
{
    for repo in repos {
        if *repo >= 8 {
            return false;
        }
    }
    true
}

/// Whether numbers of repositories rise.
fn repos_rise(repos: &[u8]) -> bool
    ensures { result ≡ rise nat_cmp repos.now }
{
    let mut last = None;
    for repo in repos {
        if !is_above(last, *repo) {
            return false;
        }
        last = Some(*repo);
    }
    true
}

/// Whether the number comes behind the last one.
fn is_above(last: Option<u8>, repo: u8) -> bool
    ensures { result ≡ is_above nat_cmp last repo }
{
    match last {
        Some(last) => last.cmp(&repo).is_lt(),
        None => true,
    }
}
