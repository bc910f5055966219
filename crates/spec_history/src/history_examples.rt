//! The definitions of local histories, computed on small histories (`specs/Examples.antt`).

ghost use Rattle.log_entries.specs.declared.entry.Entry.TheVariants.{Life};
ghost use Rattle.spec_history.specs.Checking.{is_sound};
ghost use Rattle.spec_history.specs.Examples.{again, at, at_base, away, before_upgrade, beside_itself, blind_writers, box, coordinated_above, coordinated_outside, created, created_twice, decided_late, decided_when_lost, earlier, far, finished_at_home, grown_old, home, later_read, later_write, left_behind, left_over, left_prepared, lost_by_life, mended, only, other_life, other_version, out_of_order, out_of_range, outlives, prepared_alone, prepared_anew, reading_upgraded, reading_x, same_life, set_x, setting_x, settled_by_opening, settled_twice, skipped_life, two_commits, upgrade_below_base, upgrade_in_haste, upgrade_that_writes, upgraded, upgraded_alone, upgraded_by_one, upgrading, with_nobody, without_life, writes_nowhere, x, y, z};
ghost use Rattle.spec_history.specs.History.{Aborted, Committed, Open, epoch_of, objects_at, known_by, state};
ghost use Rattle.spec_history.specs.Opening.{IsBase};
ghost use Rattle.spec_history.specs.Order.{HasOrder};
ghost use Rattle.spec_history.specs.Sound.{each_creates_new};
ghost use Rattle.std.specs.Option.{option_map};
ghost use Rattle.std.specs.Prelude.{Bool, ◌≡◌, [], ◌∷◌, None, Some, false, take, true};
ghost use Rattle.thor_value.specs.FiniteMap.{get, keys};
ghost use Rattle.thor_value.specs.Names.{zero_ts};

/// Histories that a repository may have.
pub fn sound_examples()
    ensures two_commits { is_sound home two_commits ≡ true }
    ensures decided_late { is_sound home decided_late ≡ true }
    ensures lost_by_life { is_sound home lost_by_life ≡ true }
    ensures outlives { is_sound away outlives ≡ true }
    ensures upgraded { is_sound home upgraded ≡ true }
    ensures created { is_sound home created ≡ true }
    ensures settled_by_opening { is_sound (left_over true) (settled_by_opening true) ≡ true }
    ensures left_aborted { is_sound (left_over false) (settled_by_opening false) ≡ true }
{}

/// Histories that no repository may have.
pub fn unsound_examples()
    ensures earlier { is_sound home earlier ≡ false }
    ensures later_write { is_sound home later_write ≡ false }
    ensures later_read { is_sound home later_read ≡ false }
    ensures blind_writers { is_sound home blind_writers ≡ false }
    ensures upgrade_in_haste { is_sound home upgrade_in_haste ≡ false }
    ensures left_behind { is_sound home left_behind ≡ false }
    ensures before_upgrade { is_sound home before_upgrade ≡ false }
    ensures decided_when_lost { is_sound home decided_when_lost ≡ false }
    ensures finished_at_home { is_sound home finished_at_home ≡ false }
{}

/// What an opening settles is settled once, as its coordinator decided, and never asked for again. The
/// base counts it already. A request is above all that the base counts.
pub fn opening_examples()
    ensures twice { is_sound (left_over true) settled_twice ≡ false }
    ensures otherwise { is_sound (left_over true) (settled_by_opening false) ≡ false }
    ensures prepared { is_sound (left_over true) left_prepared ≡ false }
    ensures prepared_anew { is_sound (left_over true) prepared_anew ≡ false }
    ensures below { is_sound grown_old upgrade_below_base ≡ false }
    ensures equal { is_sound grown_old at_base ≡ false }
    ensures above { is_sound grown_old (Life 1 ∷ set_x 6 5 ∷ []) ≡ true }
    ensures object { get (left_over true).objects far ≡ Some (box 4) }
    ensures aborted { get (left_over false).objects far ≡ Some (box 0) }
    ensures top { (left_over true).top ≡ at 9 }
    ensures settled { keys (state (left_over true) (settled_by_opening true)).left ≡ [] }
    ensures home { IsBase home }
    ensures left_over { (commits : Bool) → IsBase (left_over commits) }
{}

/// Histories with requests that owe something by themselves.
pub fn vouching_examples()
    ensures other_life { is_sound home other_life ≡ false }
    ensures coordinated_above { is_sound home coordinated_above ≡ false }
    ensures beside_itself { is_sound home beside_itself ≡ false }
    ensures with_nobody { is_sound home with_nobody ≡ false }
    ensures coordinated_outside { is_sound away coordinated_outside ≡ false }
    ensures prepared_alone { is_sound home prepared_alone ≡ false }
    ensures upgrade_that_writes { is_sound home upgrade_that_writes ≡ false }
    ensures upgraded_by_one { is_sound home upgraded_by_one ≡ false }
    ensures upgraded_alone { is_sound only upgraded_alone ≡ true }
    ensures other_version { is_sound home other_version ≡ false }
    ensures out_of_order { is_sound home out_of_order ≡ false }
    ensures out_of_range { is_sound home out_of_range ≡ false }
{}

/// Soundness doesn't see that a name is created twice, nor that a request writes what isn't there and isn't new. The second one
/// to create the name didn't give a new one.
pub fn created_name_examples()
    ensures created_twice { is_sound home created_twice ≡ true }
    ensures writes_nowhere { is_sound home writes_nowhere ≡ true }
    ensures second { ¬ each_creates_new home created_twice }
{}

/// The first entry is a Life, and each Life is one above the last.
pub fn life_examples()
    ensures without { is_sound home without_life ≡ false }
    ensures same { is_sound home same_life ≡ false }
    ensures skipped { is_sound home skipped_life ≡ false }
    ensures life { (state home lost_by_life).life ≡ 2 }
{}

/// What the objects are at a place.
pub fn value_examples()
    ensures at_the_start { get (objects_at home two_commits 1) x ≡ Some (box 0) }
    ensures behind_one { get (objects_at home two_commits 2) x ≡ Some (box 5) }
    ensures behind_both { get (objects_at home two_commits 3) x ≡ Some (box 6) }
    ensures undecided { get (objects_at home decided_late 3) x ≡ Some (box 0) }
    ensures decided { get (objects_at home decided_late 4) x ≡ Some (box 5) }
    ensures lost { get (objects_at home lost_by_life 3) x ≡ Some (box 0) }
    ensures new { get (objects_at home created 1) z ≡ None }
    ensures created { get (objects_at home created 2) z ≡ Some (box 7) }
{}

/// How transactions stand.
pub fn standing_examples()
    ensures undecided { option_map (λ o. o.fate) (known_by home (take 3 decided_late) (at 1)) ≡ Some Open }
    ensures decided { option_map (λ o. o.fate) (known_by home decided_late (at 1)) ≡ Some (Committed 3) }
    ensures place { option_map (λ o. o.place) (known_by home decided_late (at 1)) ≡ Some 1 }
    ensures lost { option_map (λ o. o.fate) (known_by home lost_by_life (at 1)) ≡ Some Aborted }
    ensures outlives { option_map (λ o. o.fate) (known_by away (take 3 outlives) (at 1)) ≡ Some Open }
    ensures finished { option_map (λ o. o.fate) (known_by away outlives (at 1)) ≡ Some (Committed 3) }
    ensures unknown { known_by home two_commits (at 4) ≡ None }
    ensures epoch { epoch_of (state home upgraded) ≡ 1 }
{}

/// A history with local order that isn't sound, and the history of a trace.
pub fn mended_example()
    ensures unsound { is_sound home mended ≡ false }
    ensures order { HasOrder home mended }
{}
