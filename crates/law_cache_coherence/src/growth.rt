//! What others do leaves what a client keeps as it is.

ghost use Rattle.law_cache_coherence.specs.Fitting.{Agrees, Copies, FitsAt, Kept, NoneToFinish, SameCopies, with_writes};
ghost use Rattle.spec_history.specs.History.{Base, Known, Open, known_by};
ghost use Rattle.spec_history.specs.Sound.{sound};
ghost use Rattle.client_port.specs.Growing.{Grew};
ghost use Rattle.client_port.specs.Views.{Calm, Unsettled};
ghost use Rattle.spec_trace.specs.Exact.{WritesOnPages, exact};
ghost use Rattle.spec_trace.specs.Trace.{Item, entries};
ghost use Rattle.std.specs.Prelude.{Bool, List, Some, false, true, ℕ, ◌≡◌, ◌⊎◌};
ghost use Rattle.thor_value.specs.declared.names.Ts.{Ts};

/// What a client keeps fits what others make of the trace, stops and restarts of the repository in between: its
/// session isn't live any more, or it keeps up with it, and each of its copies is current or is about to be called
/// invalid.
pub fn others_act()
    ensures { (c : ℕ) (b : Base) (committed : Ts → Bool) (kept : Kept) (u w : Unsettled) (T S : List Item) →
        Grew b c u T w S → exact b S → sound b (entries S) → Agrees b (entries S) kept.session committed →
        FitsAt c b u T committed kept → FitsAt c b w S committed kept }
{}

/// Where more is known to have committed at its coordinator, but nothing of the session's own that is undecided here,
/// all fits still. Where a transaction of the session's own has committed there, its client's copies fit with what
/// it wrote here.
pub fn outcomes_are_told()
    ensures others { (c : ℕ) (b : Base) (T : List Item) (committed later : Ts → Bool) (kept : Kept) →
        ((t : Ts) → committed t ≡ true → later t ≡ true) →
        ((t : Ts) (o : Known) → known_by b (entries T) t ≡ Some o → o.fate ≡ Open → o.request.session ≡ kept.session → later t ≡ true → committed t ≡ true) →
        FitsAt c b Calm T committed kept → FitsAt c b Calm T later kept }
    ensures own { (c : ℕ) (b : Base) (T : List Item) (committed later : Ts → Bool) (kept : Kept) (t : Ts) (o : Known) →
        FitsAt c b Calm T committed kept → known_by b (entries T) t ≡ Some o → o.fate ≡ Open → o.request.session ≡ kept.session →
        ((u : Ts) → later u ≡ true → (committed u ≡ true) ⊎ (u ≡ t)) → later t ≡ true → ((u : Ts) → committed u ≡ true → later u ≡ true) →
        kept.awaits ≡ false → NoneToFinish b (entries T) kept.session committed → WritesOnPages b T kept.session o.request →
        (copies : Copies) → (b.tells ≡ true → SameCopies b copies (with_writes o.request kept.copies)) →
        FitsAt c b Calm T later (record kept { copies = copies }) }
{}
