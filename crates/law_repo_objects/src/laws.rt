//! What is proved of the objects that a repository holds.

ghost use Rattle.law_repo_memory.specs.Agreeing.{HeldAgrees};
ghost use Rattle.law_repo_objects.specs.Holding.{HoldsObjects};
ghost use Rattle.log_entries.specs.declared.entry.Entry.{Entry};
ghost use Rattle.mob_flusher.specs.Map.{Kept};
ghost use Rattle.repo_core.specs.Objects.{ObjectsTake};
ghost use Rattle.repo_core.specs.Restarting.{ComesUp};
ghost use Rattle.repo_core.specs.Shown.{Shown, ShowsPages};
ghost use Rattle.repo_state.specs.Entering.{loaded};
ghost use Rattle.repo_trace.specs.Recorded.{with_entry};
ghost use Rattle.spec_history.specs.History.{Base};
ghost use Rattle.std.specs.Prelude.{List, [], false, ℕ, ◌++◌, ◌∷◌, ◌≡◌};

/// Behind an event that makes an entry the objects are those of the history with that entry.
pub fn objects_follow_entries()
    ensures { (b : Base) (first : List ℕ) (opened : Kept) (x y : Shown) (e : Entry) → HeldAgrees b x.trace x.held x.memory.requested → ShowsPages x → x.is_torn ≡ false → y.held.repo ≡ x.held.repo →
        ObjectsTake (loaded x.held e) x y → y.trace.history ≡ x.trace.history ++ e ∷ [] → HoldsObjects b first opened x → HoldsObjects b first opened y }
{}

/// Behind an event that makes none they are as they were.
pub fn objects_stay()
    ensures { (b : Base) (first : List ℕ) (opened : Kept) (x y : Shown) → ShowsPages x → x.is_torn ≡ false → y.held.repo ≡ x.held.repo → ObjectsTake [] x y → y.trace.history ≡ x.trace.history → HoldsObjects b first opened x → HoldsObjects b first opened y }
{}

/// Behind a restart that comes up they are those of the history with what was taken.
pub fn restarts_keep_objects()
    ensures { (b : Base) (first : List ℕ) (opened : Kept) (x y : Shown) → HeldAgrees b x.trace x.held x.memory.requested → ShowsPages x → x.is_torn ≡ false → y.held.repo ≡ x.held.repo → ComesUp x y → HoldsObjects b first opened x → HoldsObjects b first opened y }
{}
