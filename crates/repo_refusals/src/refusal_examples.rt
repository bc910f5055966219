//! Windows, and what stands against requests, computed on small histories.

ghost use Rattle.spec_history.specs.Checking.{is_sound};
ghost use Rattle.spec_history.specs.Examples.{again, at, away, before_upgrade, beside_itself, blind_writers, box, coordinated_above, coordinated_outside, created, created_twice, decided_late, decided_when_lost, earlier, far, finished_at_home, home, later_read, later_write, left_behind, left_over, left_prepared, lost_by_life, mended, only, other_life, other_version, out_of_order, out_of_range, outlives, prepared_alone, prepared_anew, reading_upgraded, reading_x, same_life, setting_x, settled_by_opening, settled_twice, skipped_life, two_commits, upgrade_in_haste, upgrade_that_writes, upgraded, upgraded_alone, upgraded_by_one, upgrading, with_nobody, without_life, writes_nowhere, x, y, z};
ghost use Rattle.repo_refusals.specs.WindowExamples.{answer_to};
ghost use Rattle.spec_history.specs.History.{Aborted, Committed, Open, epoch_of, objects_at, known_by, state};
ghost use Rattle.spec_history.specs.Opening.{IsBase};
ghost use Rattle.spec_history.specs.Order.{HasOrder};
ghost use Rattle.repo_refusals.specs.Window.{window};
ghost use Rattle.base_reasons.specs.declared.reason.Reason.TheVariants as reasons;
ghost use Rattle.repo_refusals.specs.declared.refusal.Refusal.TheVariants as refused;
ghost use Rattle.std.specs.Option.{option_map};
ghost use Rattle.std.specs.Prelude.{Bool, ◌≡◌, [], ◌∷◌, None, Some, false, take, true};
ghost use Rattle.thor_value.specs.FiniteMap.{get, keys};
ghost use Rattle.thor_value.specs.Names.{zero_ts};

/// What a repository answers to a request.
pub fn verdict_examples()
    ensures accepted { answer_to (take 3 two_commits) (reading_x 3) ≡ None }
    ensures earlier { answer_to (take 2 earlier) (reading_x 2) ≡ Some (refused.Reason (reasons.Earlier (at 1) x)) }
    ensures later_write { answer_to (take 2 later_write) (reading_x 2) ≡ Some (refused.Reason (reasons.Later (at 5) x)) }
    ensures later_read { answer_to (take 2 later_read) (setting_x 2 6) ≡ Some (refused.Reason (reasons.Later (at 5) x)) }
    ensures blocked { answer_to (take 2 upgrade_in_haste) (upgrading 2) ≡ Some (refused.Reason (reasons.Blocked (at 1))) }
    ensures left_behind { answer_to (take 3 left_behind) (reading_x 2) ≡ Some (refused.Reason (reasons.Epoch 1)) }
    ensures before_upgrade { answer_to (take 3 before_upgrade) (reading_upgraded 2) ≡ Some (refused.Reason (reasons.TooOld (at 5))) }
    ensures lost { answer_to (take 3 lost_by_life) (setting_x 2 6) ≡ None }
{}

/// What the window is: the threshold and the members.
pub fn window_examples()
    ensures start { (window home (take 1 two_commits)).threshold ≡ zero_ts }
    ensures remembers { keys (window home two_commits).members ≡ at 1 ∷ at 2 ∷ at 3 ∷ [] }
    ensures life { keys (window home lost_by_life).members ≡ again 2 ∷ [] }
    ensures upgrade { (window home (take 5 upgraded)).threshold ≡ at 2 }
    ensures cleared { keys (window home (take 5 upgraded)).members ≡ [] }
{}
