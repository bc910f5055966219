//! What stands against a request.

ghost use Rattle.std.specs.Map.{keys_of};
ghost use Rattle.std.specs.Prelude.{◌≡◌, Err, None, OnOk, Some};
ghost use Rattle.validation_queue.specs.Clashes.{clash};
ghost use Rattle.validation_queue.specs.Names.{IsInOrder};
ghost use Rattle.cached_sets.specs.Sets as sets;
ghost use Rattle.repo_refusals.specs.Queue.{is_too_old};
ghost use Rattle.repo_volatile.specs.Volatile.{against, answer, transaction_of, verdict};

use crate::memory::{Memory, is_upgrade};
use base_reasons::Reason;
use log_entries::Request;
use repo_refusals::Refusal;

impl Memory {
    /// What stands against a request of a session: the first refusal that holds, in the order in which they are
    /// tried, but for the buffer's.
    pub fn judge(&self, session: u32, request: &Request, epoch: u32) -> Result<(), Refusal>
        requires { IsInOrder request.now.ros (keys_of request.now.writes) }
        ensures answer { result ≡ answer (verdict self.now epoch session request.now) }
        ensures accepted { OnOk result (clash self.now.queue (transaction_of request.now) ≡ None) }
    {
        if !self.sessions.is_live(session) {
            return Err(Refusal::Reason(Reason::Gone { session }));
        }
        if let Some(tx) = self.queue.blocking(is_upgrade(request)) {
            return Err(Refusal::Reason(Reason::Blocked { tx }));
        }
        if request.epoch != epoch {
            return Err(Refusal::Reason(Reason::Epoch { n: epoch }));
        }
        self.validate(session, request)
    }

    /// What other transactions and the session's invalid set have against a request.
    fn validate(&self, session: u32, request: &Request) -> Result<(), Refusal>
        requires { IsInOrder request.now.ros (keys_of request.now.writes) }
        ensures answer { result ≡ answer (against (clash self.now.queue (transaction_of request.now)) (sets.stale self.now.sessions.sets session request.now.ros request.now.upto)) }
        ensures accepted { OnOk result (clash self.now.queue (transaction_of request.now) ≡ None) }
    {
        match self.queue.validate(
            request.tx,
            is_upgrade(request),
            &request.ros,
            &request.writes,
        ) {
            Ok(()) => self.refuse_stale(session, request),
            Err(clash) => Err(self.refuse_clash(session, request, clash)),
        }
    }

    /// What the session's invalid set has against a request.
    fn refuse_stale(&self, session: u32, request: &Request) -> Result<(), Refusal>
        requires { IsInOrder request.now.ros (keys_of request.now.writes) }
        ensures { result ≡ answer (against None (sets.stale self.now.sessions.sets session request.now.ros request.now.upto)) }
    {
        match self.sessions.stale(session, &request.ros, request.upto) {
            Some((oref, place)) => Err(Refusal::Reason(Reason::Stale { oref, place })),
            None => Ok(()),
        }
    }

    /// The refusal of a request that clashes: a stale copy comes before all but the threshold.
    fn refuse_clash(&self, session: u32, request: &Request, clash: Reason) -> Refusal
        requires { IsInOrder request.now.ros (keys_of request.now.writes) }
        ensures { Err result ≡ answer (against (Some clash) (sets.stale self.now.sessions.sets session request.now.ros request.now.upto)) }
    {
        if is_too_old(clash) {
            return Refusal::Reason(clash);
        }
        match self.sessions.stale(session, &request.ros, request.upto) {
            Some((oref, place)) => Refusal::Reason(Reason::Stale { oref, place }),
            None => Refusal::Reason(clash),
        }
    }
}

/// Whether a transaction isn't above the threshold.
fn is_too_old(reason: Reason) -> bool
    ensures { result ≡ is_too_old reason }
{
    match reason {
        Reason::TooOld { .. } => true,
        Reason::Gone { .. }
        | Reason::Epoch { .. }
        | Reason::Blocked { .. }
        | Reason::Stale { .. }
        | Reason::Earlier { .. }
        | Reason::Later { .. }
        | Reason::Full { .. }
        | Reason::ClockEnd => false,
    }
}
