//! The requests by which a client has its transactions committed.

ghost use Rattle.client_state.specs.Calling.{upto_in};
ghost use Rattle.client_state.specs.Sending.{IsOfSession, IsOfShare, SendsFirst, SendsShare, request_of, sending_of, transform_of, upto_behind};
ghost use Rattle.client_cache.specs.Copies.{Contents};
ghost use Rattle.client_state.specs.Writing.{HoldsWritten, WritesShares, WritesThere, is_held_or_created};
ghost use Rattle.spec_history.specs.Requests.{has_created};
ghost use Rattle.std.specs.List.{list_all};
ghost use Rattle.std.specs.Prelude.{IfOk, IfSome, IsTrue, MatchOption, None, [], slice_get, ◌∷◌, ◌↔◌, ◌≡◌};

use crate::held::Held;
use crate::transaction::{Share, Transaction};
use crate::transform::{Becomes, transform_request};
use log_entries::Request;
use session_outbox::At;
use thor_value::{NoMemory, Obj, Oref, TryCopy, Ts, Who};

/// What a participant is sent.
#[derive(Drop)]
pub struct Sending {
    pub at: At,
    pub request: Request,
}

impl Held {
    /// Takes out of a transaction what its next participant is to be sent, where there is one. Where none comes behind it, its
    /// request writes all that the transaction writes.
    #[tactic(auto, using(crate::proofs::Writing::sent_alone))]
    pub fn next_sending(
        &self,
        who: Who,
        ts: Ts,
        transaction: &mut Transaction,
    ) -> Result<Option<Sending>, NoMemory>
        ensures tx { IfOk result (λ some. IfSome some (λ sending. sending.request.tx ≡ ts)) }
        ensures session { IfOk result (λ some. IfSome some (IsOfSession self.now.links.items)) }
        ensures share { IfOk result (λ some. IfSome some (SendsFirst self.now.links.items transaction.old.shares.items)) }
        ensures sends { IfOk result (λ some. MatchOption some (transaction.old.shares.items ≡ []) (SendsShare self.now.links.items who ts transaction.old transaction.new)) }
        ensures still { IfOk result (λ some. some ≡ None → transaction.new ≡ transaction.old) }
        ensures rest { transaction.new ≡ record transaction.old { shares = transaction.new.shares } }
        ensures writes { IfOk result (λ some. IfSome some (λ sending. transaction.new.shares.items ≡ [] → (c : Contents) → WritesShares transaction.old.shares.items c → WritesThere sending.at.repo sending.request.writes c)) }
    {
        match transaction.next_share() {
            Some(share) => Ok(Some(self.sending(who, ts, transaction, share)?)),
            None => Ok(None),
        }
    }

    fn sending(
        &self,
        who: Who,
        ts: Ts,
        transaction: &Transaction,
        share: Share,
    ) -> Result<Sending, NoMemory>
        ensures tx { IfOk result (λ sending. sending.request.tx ≡ ts) }
        ensures session { IfOk result (IsOfSession self.now.links.items) }
        ensures share { IfOk result (IsOfShare self.now.links.items share) }
        ensures all { IfOk result (λ sending. sending ≡ sending_of self.now.links.items who ts transaction.now share) }
    {
        let at = share.at();
        let request = self.request(who, ts, transaction, share)?;
        Ok(Sending { at, request })
    }

    /// Whether the client has copies of all that a request writes and hasn't created.
    pub fn holds_written(&self, request: &Request) -> bool
        ensures { IsTrue result ↔ HoldsWritten request.now self.now.cache.cache }
    {
        self.holds_each(request)
    }

    /// The same, told write by write.
    fn holds_each(&self, request: &Request) -> bool
        ensures { result ≡ list_all (λ w. is_held_or_created request.now self.now.cache.cache w.0) request.now.writes }
    {
        request
            .writes
            .as_slice()
            .iter()
            .all(|(oref, _)| self.holds_or_creates(request, *oref))
    }

    /// Whether the client has a copy of an object, or a request creates it.
    fn holds_or_creates(&self, request: &Request, oref: Oref) -> bool
        ensures { result ≡ is_held_or_created request.now self.now.cache.cache oref }
    {
        self.cache.cache.has_copy(oref) || creates(request, oref)
    }

    /// The request of a transform in a session, and what its object becomes.
    pub fn transform_request(
        &self,
        at: At,
        ts: Ts,
        becomes: Becomes,
    ) -> Result<(Request, Obj), NoMemory>
        ensures tx { IfOk result (λ made. made.0.tx ≡ ts) }
        ensures session { IfOk result (λ made. made.0.session ≡ at.session) }
        ensures upto { IfOk result (λ made. made.0.upto ≡ upto_in (slice_get self.now.links.items at.repo)) }
        ensures writes { IfOk result (λ made. made.0.writes ≡ (becomes.oref, made.1) ∷ []) }
        ensures all { IfOk result (λ made. made.0 ≡ transform_of self.now.client at.session (upto_in (slice_get self.now.links.items at.repo)) ts becomes.oref becomes.made becomes.ros) }
        ensures made { IfOk result (λ made. made.1 ≡ becomes.made) }
    {
        let upto = self.upto(at.repo);
        transform_request(self.alloc, self.client, at, upto, ts, becomes)
    }

    /// The request to a participant. Where its session is still there, messages that were taken since
    /// are acknowledged.
    fn request(
        &self,
        who: Who,
        ts: Ts,
        transaction: &Transaction,
        share: Share,
    ) -> Result<Request, NoMemory>
        ensures tx { IfOk result (λ request. request.tx ≡ ts) }
        ensures session { IfOk result (λ request. request.session ≡ share.session) }
        ensures upto { IfOk result (λ request. request.upto ≡ upto_behind (slice_get self.now.links.items share.repo) share.session share.upto) }
        ensures writes { IfOk result (λ request. request.writes ≡ share.writes) }
        ensures all { IfOk result (λ request. request ≡ request_of who ts (upto_behind (slice_get self.now.links.items share.repo) share.session share.upto) transaction.now share) }
    {
        let Share {
            repo,
            session,
            upto,
            ros,
            writes,
        } = share;
        Ok(Request {
            tx: ts,
            who,
            session,
            kind: transaction.meaning.kind()?,
            epoch: transaction.epoch,
            upto: self.upto_of(repo, session, upto),
            ros,
            writes,
            fresh: transaction.fresh.copy()?,
            answer: transaction.meaning.answer()?,
            others: transaction.others(repo)?,
        })
    }

    /// How far the messages of a session were taken: as it stands, or as it stood before it was lost.
    fn upto_of(&self, repo: u8, session: u32, before: u64) -> u64
        ensures { result ≡ upto_behind (slice_get self.now.links.items repo) session before }
    {
        match self.links.get(usize::from(repo)) {
            Some(link) if link.is_session(session) => link.upto(),
            Some(_) | None => before,
        }
    }
}

/// Whether a request creates an object.
fn creates(request: &Request, oref: Oref) -> bool
    ensures { result ≡ has_created request.now oref }
{
    request
        .fresh
        .as_slice()
        .iter()
        .any(|created| oref == *created)
}
