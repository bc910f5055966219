//! The verdict, computed on small traces (`specs/VerdictExamples.antt`).

ghost use Rattle.log_entries.specs.declared.entry.Entry.TheVariants.{One};
ghost use Rattle.spec_history.specs.Checking.{is_sound};
ghost use Rattle.spec_history.specs.Examples.{at, home, reading_x, x};
ghost use Rattle.spec_trace.specs.SessionExamples.{acknowledged, connected_anew, invalid_taken, restarted, written_since};
ghost use Rattle.spec_trace.specs.Trace.{entries};
ghost use Rattle.repo_refusals.specs.Refusals.{bytes_of, full_of_undecided};
ghost use Rattle.spec_trace.specs.Verdict.{verdict};
ghost use Rattle.spec_trace.specs.VerdictExamples.{advanced, answer_in, crowd, crowd_at, later_then, second_reads, second_sets, undecided_since, undecided_then, with_limit};
ghost use Rattle.repo_refusals.specs.Window.{enter, with_room};
ghost use Rattle.base_reasons.specs.declared.reason.Reason.TheVariants as reasons;
ghost use Rattle.repo_refusals.specs.declared.refusal.Refusal.TheVariants as refused;
ghost use Rattle.thor_value.specs.FiniteMap.{get, len};
ghost use Rattle.thor_value.specs.Names.{zero_ts};
ghost use Rattle.std.specs.Prelude.{◌≡◌, [], ◌∷◌, ◌++◌, None, Some, false, take, true};

/// A copy that another session has written since is stale until its client has taken the message of
/// it, or has acknowledged it.
pub fn stale_examples()
    ensures nothing_written { answer_in home (take 8 written_since) (second_reads 3 0) ≡ None }
    ensures stale { answer_in home written_since (second_reads 3 0) ≡ Some (refused.Reason (reasons.Stale x 2)) }
    ensures stale_until_known { answer_in home invalid_taken (second_reads 3 2) ≡ Some (refused.Reason (reasons.Stale x 2)) }
    ensures known { answer_in home invalid_taken (second_reads 3 3) ≡ None }
    ensures sound_with_it { is_sound home (entries invalid_taken ++ One (second_reads 3 3) ∷ []) ≡ true }
    ensures acknowledged { answer_in home acknowledged (second_reads 3 0) ≡ None }
    ensures no_page { verdict home connected_anew 3 (second_reads 3 0) ≡ None }
{}

/// A session that has ended, or never began, is gone.
pub fn gone_examples()
    ensures anew { answer_in home connected_anew (second_reads 3 2) ≡ Some (refused.Reason (reasons.Gone 2)) }
    ensures restarted { answer_in home restarted (second_reads 3 2) ≡ Some (refused.Reason (reasons.Gone 2)) }
    ensures nobody { verdict home written_since 7 (second_reads 3 2) ≡ Some (refused.Reason (reasons.Gone 7)) }
{}

/// Which refusal comes where several hold.
pub fn order_examples()
    ensures gone_first { answer_in advanced restarted (second_reads 3 0) ≡ Some (refused.Reason (reasons.Gone 2)) }
    ensures too_old_before_stale { answer_in advanced written_since (second_reads 3 0) ≡ Some (refused.Reason (reasons.TooOld (at 5))) }
    ensures stale_before_earlier { answer_in home undecided_since (second_reads 4 0) ≡ Some (refused.Reason (reasons.Stale x 2)) }
    ensures earlier { answer_in home undecided_then (second_reads 4 0) ≡ Some (refused.Reason (reasons.Earlier (at 3) x)) }
    ensures later_before_full { answer_in (with_limit 0) later_then (second_sets 4 0) ≡ Some (refused.Reason (reasons.Later (at 9) x)) }
{}

/// An object with one field has 16 bytes: the buffer refuses it where it has a byte less.
pub fn buffer_examples()
    ensures bytes { bytes_of (second_sets 3 0) ≡ 16 }
    ensures fits { answer_in (with_limit 16) acknowledged (second_sets 3 0) ≡ None }
    ensures full { answer_in (with_limit 15) acknowledged (second_sets 3 0) ≡ Some (refused.Reason (reasons.Full 15)) }
    ensures reads { answer_in (with_limit 0) acknowledged (second_reads 3 0) ≡ None }
{}

/// A window has room for one more unless it has 1,024 members and all are undecided. Where it is full, the
/// decided member with the least timestamp leaves, and the threshold rises to it.
pub fn window_room_examples()
    ensures one_less { full_of_undecided (crowd 1022 false) ≡ None }
    ensures full { full_of_undecided (crowd 1023 false) ≡ Some (refused.Reason (reasons.Full 1024)) }
    ensures one_decided { full_of_undecided (crowd 1023 true) ≡ None }
    ensures evicted { get (with_room (crowd_at 1 1023 true)).members (at 1) ≡ None }
    ensures raised { (with_room (crowd_at 1 1023 true)).threshold ≡ at 1 }
    ensures full_again { len (enter (crowd_at 1 1023 true) (reading_x 2000) false).members ≡ 1024 }
    ensures kept { (with_room (crowd_at 1 1022 true)).threshold ≡ zero_ts }
{}
