//! What is told of transactions that have committed at their coordinators, and that a client fits behind it.

ghost use Rattle.law_cache_coherence.specs.Fitting.{Copies};
ghost use Rattle.law_cache_coherence.specs.Steps.{AllSeenRight, LinksFit};
ghost use Rattle.law_cache_coherence.specs.Verdicts.{OutcomesTold, TakesAll};
ghost use Rattle.client_state.specs.declared.link.Link.{Link};
ghost use Rattle.session_outbox.specs.declared.answers.Verdict.{Verdict};
ghost use Rattle.client_port.specs.Views.{View};
ghost use Rattle.client_port.specs.Works.{DecideWork, Does};
ghost use Rattle.std.specs.Prelude.{Bool, List, None, Ok, Some, true, ℕ, ◌≡◌};
ghost use Rattle.thor_value.specs.declared.names.Ts.{Ts};

/// Where more is known to have committed, but nothing that is undecided in a client's sessions, all its links fit still. Where
/// one of its own transactions is told to have committed, they fit with what it wrote, at each repository where it is undecided.
pub fn verdicts_keep_all_links()
    ensures others { (port : View) (links : List Link) (committed later : Ts → Bool) (copies : Copies) → OutcomesTold port links None committed later →
        LinksFit port committed links copies → LinksFit port later links copies }
    ensures own { (port : View) (links : List Link) (committed later : Ts → Bool) (t : Ts) (copies left : Copies) → OutcomesTold port links (Some t) committed later →
        TakesAll port links committed later t copies left → LinksFit port committed links copies → LinksFit port later links left }
{}

/// A client that decides to commit, in whatever session, and is told a verdict, fits as it is, where that verdict is counted
/// among what has committed, and it holds what its transaction wrote (as `verdicts_keep_all_links` says).
pub fn decided_links_fit()
    ensures { (old new : View) (r s : ℕ) (t : Ts) (v : Verdict) (links : List Link) (copies : Copies) (committed : Ts → Bool) →
        Does {X = Verdict} old new r (Ok v) (DecideWork s t true (Ok v)) → AllSeenRight new committed → (v.commit ≡ true → committed t ≡ true) →
        LinksFit old committed links copies → LinksFit new committed links copies }
{}
