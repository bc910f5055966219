//! What is proved of local histories. Each law is a function with an empty body, whose clauses are
//! the law: they hold of every base and every history, and the events of a repository cite the same
//! definitions.

ghost use Rattle.log_entries.specs.declared.entry.Entry.TheVariants.{Life, One, Prepared, Upgraded};
ghost use Rattle.log_entries.specs.declared.entry.Entry.{Entry};
ghost use Rattle.log_entries.specs.declared.request.Request.{Request};
ghost use Rattle.spec_history.specs.Checking.{is_sound};
ghost use Rattle.spec_history.specs.History.{Base, Known, Open, commit_of, commits, epoch_of, objects_at, put, known_by, state};
ghost use Rattle.spec_history.specs.Laws.{ComesFrom, CommitsListed, Continues, CreatedOnce, KeepsBase, LivesFollow, MadeByCommits, ReadsLast, Recorded, Stays, UpgradesAreBare, UpgradesFence, WritersRise};
ghost use Rattle.spec_history.specs.Opening.{IsBase};
ghost use Rattle.spec_history.specs.Order.{HasOrder};
ghost use Rattle.spec_history.specs.Sound.{Accepts, Vouches, each_creates_new, owes, sound};
ghost use Rattle.spec_history.specs.Participants.{IsAlone, IsShared};
ghost use Rattle.spec_history.specs.Requests.{is_upgrade};
ghost use Rattle.std.specs.Bool.{Decides};
ghost use Rattle.std.specs.List.{filter};
ghost use Rattle.std.specs.Option.{IfSome, IsSomeAnd, option_or};
ghost use Rattle.std.specs.Prelude.{IsTrue, List, None, Option, [], ◌∷◌, ◌++◌, ℕ, ◌≡◌, ◌≢◌, ◌<◌, ◌≤◌, false, length, nat_lt, take, true};
ghost use Rattle.thor_value.specs.FiniteMap.{Map, empty, get, overwrite};
ghost use Rattle.thor_value.specs.Names.{Before, oref_cmp};
ghost use Rattle.thor_value.specs.declared.names.Oref.{Oref};
ghost use Rattle.thor_value.specs.declared.names.Ts.{Ts};
ghost use Rattle.thor_value.specs.declared.values.Obj.{Obj};

/// A history grows at its end, by one step of the fold, and what it was at a place stays. The commits
/// below a place are those of the list of commits whose places are below.
pub fn histories_grow()
    ensures step { (b : Base) (H : List Entry) (e : Entry) → state b (H ++ e ∷ []) ≡ put b (state b H) e }
    ensures places { (b : Base) (H : List Entry) → (state b H).length ≡ length H }
    ensures objects { (b : Base) (n : ℕ) (H more : List Entry) → n ≤ length H →
        objects_at b (H ++ more) n ≡ objects_at b H n }
    ensures commits { (b : Base) (H : List Entry) (e : Entry) →
        commits b (H ++ e ∷ []) ≡ commits b H ++ commit_of b (state b H) e }
    ensures below { (b : Base) (n : ℕ) (H : List Entry) → n ≤ length H →
        commits b (take n H) ≡ filter (λ c. nat_lt c.0 n) (commits b H) }
{}

/// A history is sound where its beginning is and each further entry owes what it owes.
pub fn sound_histories_grow()
    ensures beginning { (b : Base) (H more : List Entry) → sound b (H ++ more) → sound b H }
    ensures owed { (b : Base) (H : List Entry) (e : Entry) → sound b (H ++ e ∷ []) → owes b (state b H) e }
    ensures grown { (b : Base) (H : List Entry) (e : Entry) → sound b H → owes b (state b H) e →
        sound b (H ++ e ∷ []) }
{}

/// A repository's lives follow one another.
pub fn lives_follow()
    ensures { (b : Base) (H : List Entry) → sound b H → LivesFollow b H }
{}

/// The test of a history decides whether it is sound.
pub fn histories_are_checked()
    ensures { (b : Base) (H : List Entry) → Decides (is_sound b H) (sound b H) }
{}

/// A transaction that stands in a history stands in each longer one: its request keeps its place, and
/// a commit and an abort are final. It stood in the history below each place behind its own. A Life
/// leaves none undecided that this repository coordinates.
pub fn outcomes_are_final()
    ensures stays { (b : Base) (H more : List Entry) → sound b (H ++ more) → (t : Ts) →
        IfSome (known_by b H t) (λ o. IsSomeAnd (known_by b (H ++ more) t) (λ w. Stays o w)) }
    ensures stood { (b : Base) (H : List Entry) → sound b H → (n : ℕ) → n ≤ length H →
        (t : Ts) (w : Known) → known_by b H t ≡ Some w → w.place < n →
        IsSomeAnd (known_by b (take n H) t) (λ o. Stays o w) }
    ensures life { (b : Base) (H : List Entry) (n : ℕ) → sound b (H ++ Life n ∷ []) →
        (t : Ts) (o : Known) → known_by b (H ++ Life n ∷ []) t ≡ Some o → t.repo ≡ b.repo →
        o.fate ≢ Open }
{}

/// A transaction's request is the entry at its place and owed what it owed to the history below; two
/// transactions stand at two places; the commits are those of the transactions that stand committed. Each
/// transaction is above all that committed in earlier runs.
pub fn requests_are_recorded()
    ensures recorded { (b : Base) (H : List Entry) → sound b H → (t : Ts) (o : Known) →
        known_by b H t ≡ Some o → Recorded b H t o }
    ensures apart { (b : Base) (H : List Entry) → sound b H → (s t : Ts) (o w : Known) →
        known_by b H s ≡ Some o → known_by b H t ≡ Some w → o.place ≡ w.place → s ≡ t }
    ensures commits { (b : Base) (H : List Entry) → sound b H → CommitsListed b H }
    ensures above { (b : Base) (H : List Entry) → sound b H → (t : Ts) (o : Known) →
        known_by b H t ≡ Some o → Before b.top t }
{}

/// The objects, the installed upgrades and the greatest committed timestamp are the base's with the
/// commits, by their places. An object is as the last of its writers left it, or else as the base has
/// it; so its value at a place is that of the last commit below that wrote it.
pub fn commits_make_the_state()
    ensures { (b : Base) (H : List Entry) → MadeByCommits b H }
{}

/// An object at the end of a history is as the last commit wrote it that wrote it, or else the base's.
/// What a list of writes leaves at a name is its last write there, or what stood there.
pub fn objects_are_written()
    ensures source { (b : Base) (H : List Entry) (x : Oref) → sound b H → ComesFrom b H x }
    ensures behind { (x : Oref) (m : Map oref_cmp Obj) (ws : List (Oref × Obj)) →
        get (overwrite m ws) x ≡ option_or (get {R = oref_cmp} (overwrite empty ws) x) (get m x) }
{}

/// Writers of one object come in the same order by place and by timestamp. At most one of them is
/// undecided, and it is above all that committed.
pub fn writers_rise()
    ensures { (b : Base) (H : List Entry) → sound b H → WritersRise b H }
{}

/// What a request reads at its place is the write of the greatest transaction below it by timestamp
/// that isn't aborted, and that transaction has committed below the place.
pub fn reads_are_last_writes()
    ensures { (b : Base) (H : List Entry) → sound b H → ReadsLast b H }
{}

/// Each transaction is before an upgrade or after it, by timestamp and by place alike.
pub fn upgrades_fence()
    ensures { (b : Base) (H : List Entry) → sound b H → UpgradesFence b H }
{}

/// An upgrade changes no object and is every repository's.
pub fn upgrades_are_bare()
    ensures { (b : Base) (H : List Entry) → sound b H → UpgradesAreBare b H }
{}

/// What holds of the objects of a base, and of its last single commits, holds of each sound history's.
pub fn bases_are_kept()
    ensures { (b : Base) (H : List Entry) → IsBase b → sound b H → KeepsBase b H }
{}

/// Where each transaction gave new names at its place, a created object wasn't there, and nobody before wrote it.
pub fn created_objects_are_new()
    ensures { (b : Base) (H : List Entry) → sound b H → IsTrue b.tells → each_creates_new b H → CreatedOnce b H }
{}

/// Sound histories have local order.
pub fn sound_histories_have_order()
    ensures { (b : Base) (H : List Entry) → sound b H → HasOrder b H }
{}
