//! Requests.

ghost use Rattle.std.specs.Prelude.{◌≡◌, ◌++◌, ◌<◌, ◌^◌, IsTrue, ◌↔◌, length, OnOk};
ghost use Rattle.std.specs.Ordering.{nat_cmp};
ghost use Rattle.log_entries.specs.RequestForm.{RequestFits};
ghost use Rattle.log_codec.specs.Format.{Gives, ◌then◌, list, u32_format, u64_format};
ghost use Rattle.log_codec.specs.Grammar.{answer_format, kind_format, obj_format, oref_format, repos_format, ts_format, who_format};

use crate::fault::BodyFault;
use crate::lists::{put_several, read_several};
use crate::rising::rises;
use crate::spelled::Spelled;
use log_entries::{Kind, Request};
use std::alloc::Global;
use thor_value::{
    Answer, Fault, Ints, NoMemory, Obj, Oref, Orefs, Repos, Sequence, Text, Ts, Who, Writes, both,
};

impl Spelled for Who {
    ghost use Rattle.log_codec.specs.Grammar.{who_format};

    ghost format = { who_format };

    #[tactic(auto, unfolding(crate::specs::Grammar::who_format))]
    fn read(alloc: Global, bytes: &[u8]) -> Result<(Who, &[u8]), BodyFault> {
        let (client, rest) = u8::read(alloc, bytes)?;
        let (index, rest) = u32::read(alloc, rest)?;
        Ok((Who { client, index }, rest))
    }

    #[tactic(auto, unfolding(crate::specs::Grammar::who_format), using(std::proofs::Common::append_assoc))]
    fn put(&self, out: &mut Text) -> Result<(), NoMemory> {
        self.client.put(out)?;
        self.index.put(out)
    }
}

impl Spelled for Kind {
    ghost use Rattle.log_codec.specs.Grammar.{kind_format};

    ghost format = { kind_format };

    #[tactic(auto, unfolding(crate::specs::Grammar::kind_format))]
    fn read(alloc: Global, bytes: &[u8]) -> Result<(Kind, &[u8]), BodyFault> {
        let (number, rest) = u8::read(alloc, bytes)?;
        match number {
            0 => Ok((Kind::App, rest)),
            1 => Ok((Kind::Transform, rest)),
            2 => {
                let (text, rest) = Text::read(alloc, rest)?;
                Ok((Kind::Upgrade { text }, rest))
            }
            _ => Err(BodyFault::NotOne),
        }
    }

    #[tactic(auto, unfolding(crate::specs::Grammar::kind_format), using(std::proofs::Common::append_assoc))]
    fn put(&self, out: &mut Text) -> Result<(), NoMemory> {
        match self {
            Kind::App => out.push(0),
            Kind::Transform => out.push(1),
            Kind::Upgrade { text } => {
                out.push(2)?;
                text.put(out)
            }
        }
    }
}

impl Spelled for Fault {
    ghost use Rattle.log_codec.specs.Grammar.{fault_format};

    ghost format = { fault_format };

    #[tactic(auto, unfolding(crate::specs::Grammar::fault_format))]
    fn read(alloc: Global, bytes: &[u8]) -> Result<(Fault, &[u8]), BodyFault> {
        let (number, rest) = u8::read(alloc, bytes)?;
        match number {
            1 => Ok((Fault::NullCall, rest)),
            2 => Ok((Fault::Steps, rest)),
            3 => Ok((Fault::Depth, rest)),
            4 => Ok((Fault::Large, rest)),
            _ => Err(BodyFault::NotOne),
        }
    }

    #[tactic(auto, unfolding(crate::specs::Grammar::fault_format))]
    fn put(&self, out: &mut Text) -> Result<(), NoMemory> {
        match self {
            Fault::NullCall => out.push(1),
            Fault::Steps => out.push(2),
            Fault::Depth => out.push(3),
            Fault::Large => out.push(4),
        }
    }
}

impl Spelled for Answer {
    ghost use Rattle.log_codec.specs.Grammar.{answer_format};

    ghost format = { answer_format };

    #[tactic(auto, unfolding(crate::specs::Grammar::answer_format))]
    fn read(alloc: Global, bytes: &[u8]) -> Result<(Answer, &[u8]), BodyFault> {
        let (number, rest) = u8::read(alloc, bytes)?;
        match number {
            0 => {
                let (ints, rest) = Ints::read(alloc, rest)?;
                Ok((Answer::Ints(ints), rest))
            }
            1 => {
                let (fault, rest) = Fault::read(alloc, rest)?;
                Ok((Answer::Fault(fault), rest))
            }
            _ => Err(BodyFault::NotOne),
        }
    }

    #[tactic(auto, unfolding(crate::specs::Grammar::answer_format), using(std::proofs::Common::append_assoc, crate::proofs::Grammars::any_fault))]
    fn put(&self, out: &mut Text) -> Result<(), NoMemory> {
        match self {
            Answer::Ints(ints) => {
                out.push(0)?;
                ints.put(out)
            }
            Answer::Fault(fault) => {
                out.push(1)?;
                fault.put(out)
            }
        }
    }
}

/// Reads the other repositories of a request.
fn read_repos(alloc: Global, bytes: &[u8]) -> Result<(Repos, &[u8]), BodyFault>
    ensures { Gives (λ x. (x.0, x.1.now)) result (repos_format.reading bytes.now) }
{
    let (count, rest) = u8::read(alloc, bytes)?;
    let (repos, rest) = read_several::<u8>(alloc, u32::from(count), rest)?;
    if rises(repos.as_slice()) {
        Ok((repos, rest))
    } else {
        Err(BodyFault::NotOne)
    }
}

#[tactic(auto, using(std::proofs::Common::append_assoc, crate::proofs::Grammars::any_bytes))]
fn put_repos(repos: &Repos, out: &mut Text) -> Result<(), NoMemory>
    requires { length repos.now < 2 ^ 8 }
    ensures { OnOk result (out.new ≡ out.old ++ repos_format.spelling repos.now) }
{
    out.push(repos.len() as u8)?;
    put_several(repos.as_slice(), out)
}

/// Reads the answer of a request, and its other repositories.
fn read_end(alloc: Global, bytes: &[u8]) -> Result<((Answer, Repos), &[u8]), BodyFault>
    ensures { Gives (λ x. (x.0, x.1.now)) result ((answer_format then repos_format).reading bytes.now) }
{
    let (answer, rest) = Answer::read(alloc, bytes)?;
    let (answer, (others, rest)) = both(answer, read_repos(alloc, rest))?;
    Ok(((answer, others), rest))
}

/// What a request says of objects, and its end.
type Said = (Orefs, (Writes, (Orefs, (Answer, Repos))));

/// Reads what a request says of objects, and its end.
fn read_said(alloc: Global, bytes: &[u8]) -> Result<(Said, &[u8]), BodyFault>
    ensures { Gives (λ x. (x.0, x.1.now)) result ((list oref_format then list (oref_format then obj_format) then list oref_format then answer_format then repos_format).reading bytes.now) }
{
    let (ros, rest) = Orefs::read(alloc, bytes)?;
    let (ros, (writes, rest)) = both(ros, Writes::read(alloc, rest))?;
    let (read, (fresh, rest)) = both((ros, writes), Orefs::read(alloc, rest))?;
    let ((read, fresh), (end, rest)) = both((read, fresh), read_end(alloc, rest))?;
    let (ros, writes) = read;
    Ok(((ros, (writes, (fresh, end))), rest))
}

/// What a request is of, what its client had seen, and what it says.
type Asked = (Kind, (u32, (u64, Said)));

/// Reads a request behind its sender.
fn read_asked(alloc: Global, bytes: &[u8]) -> Result<(Asked, &[u8]), BodyFault>
    ensures { Gives (λ x. (x.0, x.1.now)) result ((kind_format then u32_format then u64_format then list oref_format then list (oref_format then obj_format) then list oref_format then answer_format then repos_format).reading bytes.now) }
{
    let (kind, rest) = Kind::read(alloc, bytes)?;
    let (kind, (epoch, rest)) = both(kind, u32::read(alloc, rest))?;
    let (kind, (upto, rest)) = both(kind, u64::read(alloc, rest))?;
    let (kind, (said, rest)) = both(kind, read_said(alloc, rest))?;
    Ok(((kind, (epoch, (upto, said))), rest))
}

impl Spelled for Request {
    ghost use Rattle.log_codec.specs.Grammar.{request_format};

    ghost format = { request_format };

    #[tactic(auto, unfolding(crate::specs::Grammar::request_format))]
    fn read(alloc: Global, bytes: &[u8]) -> Result<(Request, &[u8]), BodyFault> {
        let (tx, rest) = Ts::read(alloc, bytes)?;
        let (who, rest) = Who::read(alloc, rest)?;
        let (session, rest) = u32::read(alloc, rest)?;
        let (asked, rest) = read_asked(alloc, rest)?;
        let (kind, (epoch, (upto, said))) = asked;
        let (ros, (writes, (fresh, (answer, others)))) = said;
        Ok((
            Request {
                tx,
                who,
                session,
                kind,
                epoch,
                upto,
                ros,
                writes,
                fresh,
                answer,
                others,
            },
            rest,
        ))
    }

    #[tactic(auto, unfolding(crate::specs::Grammar::request_format), using(std::proofs::Common::append_assoc))]
    fn put(&self, out: &mut Text) -> Result<(), NoMemory> {
        put_sender(self, out)?;
        put_seen(self, out)?;
        put_objects(self, out)?;
        put_end(self, out)
    }
}

/// Puts which transaction a request is of, and who sent it.
#[tactic(auto, unfolding(crate::specs::Grammar::who_format), using(std::proofs::Common::append_assoc))]
fn put_sender(request: &Request, out: &mut Text) -> Result<(), NoMemory>
    requires { RequestFits request.now }
    ensures { OnOk result (out.new ≡ out.old ++ (ts_format.spelling request.now.tx ++ (who_format.spelling request.now.who ++ u32_format.spelling request.now.session))) }
{
    request.tx.put(out)?;
    request.who.put(out)?;
    request.session.put(out)
}

/// Puts its kind, and what its client had seen.
#[tactic(auto, using(std::proofs::Common::append_assoc, crate::proofs::Grammars::any_kind))]
fn put_seen(request: &Request, out: &mut Text) -> Result<(), NoMemory>
    requires { RequestFits request.now }
    ensures { OnOk result (out.new ≡ out.old ++ (kind_format.spelling request.now.kind ++ (u32_format.spelling request.now.epoch ++ u64_format.spelling request.now.upto))) }
{
    request.kind.put(out)?;
    request.epoch.put(out)?;
    request.upto.put(out)
}

/// Puts what it says of objects.
#[tactic(auto, using(std::proofs::Common::append_assoc))]
fn put_objects(request: &Request, out: &mut Text) -> Result<(), NoMemory>
    requires { RequestFits request.now }
    ensures { OnOk result (out.new ≡ out.old ++ ((list oref_format).spelling request.now.ros ++ ((list (oref_format then obj_format)).spelling request.now.writes ++ (list oref_format).spelling request.now.fresh))) }
{
    request.ros.put(out)?;
    request.writes.put(out)?;
    request.fresh.put(out)
}

/// Puts its answer and the other participants.
#[tactic(auto, unfolding(crate::specs::Grammar::answer_format), using(std::proofs::Common::append_assoc))]
fn put_end(request: &Request, out: &mut Text) -> Result<(), NoMemory>
    requires { RequestFits request.now }
    ensures { OnOk result (out.new ≡ out.old ++ (answer_format.spelling request.now.answer ++ repos_format.spelling request.now.others)) }
{
    request.answer.put(out)?;
    put_repos(&request.others, out)
}
