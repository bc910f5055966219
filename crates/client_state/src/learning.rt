//! What a client learns from a refusal.

ghost use Rattle.client_state.specs.Calling.{CopiesRefused};
ghost use Rattle.client_state.specs.Learning.{Rises, floor_learnt, links_learnt};
ghost use Rattle.std.specs.Prelude.{◌≡◌};

use crate::held::Held;
use crate::link::Waits;
use base_reasons::Reason;
use repo_refusals::Refusal;

impl Held {
    /// What a client learns for its sessions and its floor from the refusal of a request.
    pub fn learn(&mut self, repo: u8, refusal: Refusal)
        ensures links { self.new.links.items ≡ links_learnt refusal repo self.old.links.items }
        ensures floor { self.new.floor ≡ floor_learnt refusal self.old.floor }
        ensures copies { CopiesRefused refusal repo self.old.links.items self.old.cache.cache self.new.cache.cache }
        ensures client { self.new.client ≡ self.old.client }
        ensures rises { Rises self.old self.new }
    {
        match refusal {
            Refusal::Reason(Reason::Gone { session }) => self.lose(repo, session),
            Refusal::Reason(Reason::Stale { place, .. }) => self.wait(repo, Waits::Past { place }),
            Refusal::Reason(Reason::Epoch { n }) => self.wait(repo, Waits::Epoch { n }),
            Refusal::Reason(Reason::TooOld { threshold }) => self.raise_floor(threshold),
            Refusal::Reason(Reason::Later { tx, .. }) => self.raise_floor(tx),
            Refusal::Reason(
                Reason::Earlier { .. }
                | Reason::Blocked { .. }
                | Reason::Full { .. }
                | Reason::ClockEnd,
            )
            | Refusal::Down { .. }
            | Refusal::Stopped { .. }
            | Refusal::Damaged { .. }
            | Refusal::NoMemory => {}
        }
    }
}
