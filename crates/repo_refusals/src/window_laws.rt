//! What is proved of windows.

ghost use Rattle.log_entries.specs.declared.entry.Entry.TheVariants.{Life, One, Prepared, Upgraded};
ghost use Rattle.log_entries.specs.declared.entry.Entry.{Entry};
ghost use Rattle.log_entries.specs.declared.request.Request.{Request};
ghost use Rattle.spec_history.specs.Checking.{is_sound};
ghost use Rattle.repo_refusals.specs.Covers.{Covers, HasRoom};
ghost use Rattle.spec_history.specs.History.{Base, Known, Open, commit_of, commits, epoch_of, objects_at, put, known_by, state};
ghost use Rattle.spec_history.specs.Laws.{ComesFrom, CommitsListed, Continues, CreatedOnce, KeepsBase, LivesFollow, MadeByCommits, ReadsLast, Recorded, Stays, UpgradesAreBare, UpgradesFence, WritersRise};
ghost use Rattle.spec_history.specs.Opening.{IsBase};
ghost use Rattle.spec_history.specs.Order.{HasOrder};
ghost use Rattle.spec_history.specs.Sound.{Accepts, Vouches, owes, sound};
ghost use Rattle.spec_history.specs.Participants.{IsAlone, IsShared};
ghost use Rattle.spec_history.specs.Requests.{is_upgrade};
ghost use Rattle.repo_refusals.specs.Refusals.{first_refusal};
ghost use Rattle.repo_refusals.specs.Window.{slide, window};
ghost use Rattle.repo_refusals.specs.declared.refusal.Refusal.{Refusal};
ghost use Rattle.std.specs.Bool.{Decides};
ghost use Rattle.std.specs.List.{filter};
ghost use Rattle.std.specs.Option.{IfSome, IsSomeAnd, option_or};
ghost use Rattle.std.specs.Prelude.{List, None, Option, [], ◌∷◌, ◌++◌, ℕ, ◌≡◌, ◌≢◌, ◌<◌, ◌≤◌, false, length, nat_lt, take, true};
ghost use Rattle.thor_value.specs.FiniteMap.{Map, empty, get, overwrite};
ghost use Rattle.thor_value.specs.Names.{oref_cmp};
ghost use Rattle.thor_value.specs.declared.names.Oref.{Oref};
ghost use Rattle.thor_value.specs.declared.names.Ts.{Ts};
ghost use Rattle.thor_value.specs.declared.values.Obj.{Obj};

/// The window of a history grows by one step of its fold, and has all that a request has to be
/// validated against: each undecided transaction, and of those that committed each that is above the
/// threshold. There are at most as many of them as a validation queue holds.
pub fn windows_cover()
    ensures step { (b : Base) (H : List Entry) (e : Entry) →
        window b (H ++ e ∷ []) ≡ slide b (state b H) (window b H) e }
    ensures covers { (b : Base) (H : List Entry) → sound b H → Covers b H }
    ensures room { (b : Base) (H : List Entry) → sound b H → HasRoom b H }
{}
