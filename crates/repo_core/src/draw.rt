//! A client draws a timestamp.

ghost use Rattle.std.specs.Prelude.{◌≡◌, ◌<◌, ◌^◌, IfErr, IfOk, IsErrOf, None, OnOk, false, true};
ghost use Rattle.repo_sessions.specs.Sessions.{is_live};
ghost use Rattle.repo_core.specs.Behind.{Stands, is_marked, with_refusal};
ghost use Rattle.spec_trace.specs.declared.mark.Mark.TheVariants.{Drew as Draws};
ghost use Rattle.repo_trace.specs.Recorded.{with_mark};
ghost use Rattle.repo_core.specs.Refusing.{CanRefuse, Leaves, StaysAsWas};
ghost use Rattle.repo_core.specs.Calls.{DrawIsRefused, IsDrawn, WasAsked};
ghost use Rattle.base_reasons.specs.declared.reason.Reason.TheVariants.{ClockEnd as IsClockEnd, Gone as IsGone};
ghost use Rattle.repo_refusals.specs.declared.refusal.Refusal.TheVariants.{Down as IsDown, NoMemory as IsNoMemory, Reason as IsReason};
ghost use Rattle.repo_core.specs.Shown.{ShowsPages};

use crate::repo::Repo;
use base_reasons::Reason;
use disk_trait::Parts;
use repo_refusals::Refusal;
use spec_trace::Mark;
use thor_value::Ts;

/// The times that are drawn are below this one.
const CLOCK_END: u64 = 1 << 62;

impl<P: Parts> Repo<P> {
    /// Draws a timestamp: its time is above the floor and above all that were drawn before, and isn't below
    /// the clock's. Refusals: `Gone`; `ClockEnd`, behind which the clock was asked once.
    #[tactic(auto, using(crate::proofs::Refused::leaves_down, crate::proofs::Refused::leaves_on, crate::proofs::Asking::asked_refused, crate::proofs::Asking::unasked_refused, crate::proofs::Causes::why_down, crate::proofs::Causes::why_marked, crate::proofs::Causes::lacks_memory))]
    pub fn draw(&mut self, session: u32, floor: u64) -> Result<Ts, Refusal>
        ensures stands { Stands self.old.is_up result self.new.is_up }
        ensures readable { ShowsPages self.old → ShowsPages self.new }
        ensures live { OnOk result (is_live self.old.memory.sessions session ≡ true) }
        ensures held { self.new.held ≡ self.old.held }
        ensures above { IfOk result (λ ts. floor < ts.time) }
        ensures later { IfOk result (λ ts. self.old.memory.drawn < ts.time) }
        ensures below { IfOk result (λ ts. ts.time < 2 ^ 62) }
        ensures repo { IfOk result (λ ts. ts.repo ≡ self.old.held.repo) }
        ensures life { IfOk result (λ ts. ts.life ≡ self.old.held.life) }
        ensures drawn { IfOk result (λ ts. self.new.memory ≡ record self.old.memory { drawn = ts.time }) }
        ensures trace { IfOk result (λ ts. self.new.trace ≡ with_mark self.old.trace (Draws session ts)) }
        ensures why { IfErr result (λ r. is_marked r ≡ true → (self.old.is_up ≡ true) × DrawIsRefused self.old.memory session floor r) }
        ensures only { IfErr result (CanRefuse self.old (DrawIsRefused self.old.memory session floor) ⊥) }
        ensures refused { IfErr result (λ r. self.new.trace ≡ with_refusal self.old.trace session None r) }
        ensures left { IfErr result (Leaves self.old self.new None) }
        ensures asked { IsErrOf result (IsReason IsClockEnd) → WasAsked self.old self.new floor }
        ensures unasked { IsErrOf result (IsReason (IsGone session)) → self.new.clock ≡ self.old.clock }
        ensures idle { IfErr result (λ r. r ≡ IsDown self.old.held.repo → self.new.clock ≡ self.old.clock) }
        ensures time { IfOk result (λ ts. IsDrawn self.old self.new floor ts.time) }
        ensures pages { self.new.pages ≡ self.old.pages }
        ensures faults { self.new.faults ≡ self.old.faults }
        ensures opened { self.new.opened_in ≡ self.old.opened_in }
    {
        self.check_up()?;
        match self.may_draw(session, floor) {
            Ok(time) => self.take_time(session, time),
            Err(refusal) => Err(self.refuse(session, None, refusal)),
        }
    }

    /// The time that is drawn next. It asks the clock, where the session is live.
    #[tactic(auto, using(crate::proofs::Readable::shown_has, crate::proofs::Refused::stays_itself))]
    fn may_draw(&mut self, session: u32, floor: u64) -> Result<u64, Refusal>
        ensures up { self.new.is_up ≡ self.old.is_up }
        ensures readable { ShowsPages self.old → ShowsPages self.new }
        ensures held { self.new.held ≡ self.old.held }
        ensures memory { self.new.memory ≡ self.old.memory }
        ensures trace { self.new.trace ≡ self.old.trace }
        ensures live { OnOk result (is_live self.old.memory.sessions session ≡ true) }
        ensures time { IfOk result (λ time. (floor < time) × (self.old.memory.drawn < time) × (time < 2 ^ 62)) }
        ensures marked { IfErr result (λ r. is_marked r ≡ true) }
        ensures why { IfErr result (DrawIsRefused self.old.memory session floor) }
        ensures rests { StaysAsWas self.old self.new }
        ensures asked { IsErrOf result (IsReason IsClockEnd) → WasAsked self.old self.new floor }
        ensures unasked { IsErrOf result (IsReason (IsGone session)) → self.new.clock ≡ self.old.clock }
        ensures drawn { IfOk result (IsDrawn self.old self.new floor) }
        ensures faults { self.new.faults ≡ self.old.faults }
        ensures opened { self.new.opened_in ≡ self.old.opened_in }
    {
        self.check_live(session)?;
        let now = self.stable.now();
        let above = self.memory.drawn().max(floor).saturating_add(1);
        let time = now.max(above);
        if time < CLOCK_END {
            Ok(time)
        } else {
            Err(Refusal::Reason(Reason::ClockEnd))
        }
    }

    #[tactic(auto, using(crate::proofs::Readable::shown_has, crate::proofs::Refused::leaves_down))]
    fn take_time(&mut self, session: u32, time: u64) -> Result<Ts, Refusal>
        requires { self.old.is_up ≡ true }
        ensures stands { Stands true result self.new.is_up }
        ensures readable { ShowsPages self.old → ShowsPages self.new }
        ensures held { self.new.held ≡ self.old.held }
        ensures named { IfOk result (λ ts. (ts.time ≡ time) × (ts.repo ≡ self.old.held.repo) × (ts.life ≡ self.old.held.life)) }
        ensures drawn { OnOk result (self.new.memory ≡ record self.old.memory { drawn = time }) }
        ensures trace { IfOk result (λ ts. self.new.trace ≡ with_mark self.old.trace (Draws session ts)) }
        ensures refused { IfErr result (λ r. (is_marked r ≡ false) × (self.new.trace ≡ self.old.trace)) }
        ensures left { IfErr result (Leaves self.old self.new None) }
        ensures refusal { IfErr result (λ r. r ≡ IsNoMemory) }
        ensures pages { self.new.pages ≡ self.old.pages }
        ensures faults { self.new.faults ≡ self.old.faults }
        ensures clock { self.new.clock ≡ self.old.clock }
        ensures opened { self.new.opened_in ≡ self.old.opened_in }
    {
        let ts = Ts {
            time,
            repo: self.stable.repo(),
            life: self.stable.held().life(),
        };
        self.mark(Ok(()), Mark::Drew { session, ts })?;
        self.memory.set_drawn(time);
        Ok(ts)
    }
}
