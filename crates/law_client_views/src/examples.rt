//! What calls do, computed on the small traces of `spec_trace`.

ghost use Rattle.log_entries.specs.declared.entry.Entry.TheVariants.{Decided};
ghost use Rattle.spec_history.specs.Examples.{at, home, x};
ghost use Rattle.session_outbox.specs.declared.answers.Asked.TheVariants as answers;
ghost use Rattle.session_outbox.specs.declared.message.Message.TheVariants as messages;
ghost use Rattle.client_port.specs.Views.{Calm, Halted, MayCome};
ghost use Rattle.client_port.specs.Works.{Answered, AskWork, CommitWork, ConnectWork, DecideWork, FetchWork, ForgetWork, ReceiveWork};
ghost use Rattle.base_reasons.specs.declared.reason.Reason.TheVariants as reasons;
ghost use Rattle.spec_trace.specs.ExactExamples.{deciding, forgetting, refusing};
ghost use Rattle.spec_trace.specs.SessionExamples.{acknowledged, connected_anew, invalid_taken, written_since};
ghost use Rattle.spec_trace.specs.VerdictExamples.{second_reads};
ghost use Rattle.std.specs.Prelude.{Err, None, Ok, Some, [], take, true, ◌∷◌};
ghost use Rattle.thor_value.specs.Names.{zero_ts};
ghost use Rattle.repo_refusals.specs.declared.refusal.Refusal.TheVariants as refused;

/// What calls of the second client do, and of the first, which decides: they begin a session, ask for a page behind the message
/// that was taken, take that message and find no other, are refused for a stale copy, decide, have the decision forgotten, and
/// ask for it. A session that has ended is gone. A decision that was being written when its repository stopped may come, and one
/// whose repository was down may not. What was to come still may while the repository is down.
pub fn what_calls_do()
    ensures connects { ConnectWork 2 (Ok (record { session = 3; epoch = 0; threshold = zero_ts; place = 3; upgrades = [] })) home written_since connected_anew Calm }
    ensures fetches { FetchWork 2 0 3 (Ok tt) home invalid_taken acknowledged Calm }
    ensures takes { ReceiveWork 2 (Ok (Some (messages.Invalid (x ∷ []) 2))) home written_since invalid_taken Calm }
    ensures none_waits { ReceiveWork 2 (Ok None) home invalid_taken invalid_taken Calm }
    ensures stale { CommitWork 2 (second_reads 3 0) (Err (refused.Reason (reasons.Stale x 2))) home written_since refusing Calm }
    ensures decides { DecideWork 1 (at 1) true (Ok (record { tx = at 1; commit = true })) home (take 6 deciding) deciding Calm }
    ensures forgets { ForgetWork (at 1) (Ok tt) home deciding forgetting Calm }
    ensures asks { AskWork (at 1) (Ok (answers.Settled (record { tx = at 1; commit = true }))) home deciding deciding Calm }
    ensures gone { FetchWork 2 0 0 (Err (refused.Reason (reasons.Gone 2))) home connected_anew connected_anew Calm }
    ensures stops { DecideWork 1 (at 1) true (Err (refused.Stopped 0)) home (take 6 deciding) (take 6 deciding) (MayCome (Decided (at 1) true)) }
    ensures down { DecideWork 1 (at 1) true (Err (refused.Down 0)) home (take 6 deciding) (take 6 deciding) Halted }
    ensures waits { Answered {X = Unit {0}} 0 (Err (refused.Down 0)) (MayCome (Decided (at 1) true)) deciding deciding (MayCome (Decided (at 1) true)) ⊥ }
{}

/// What they don't do: an outage leaves it open that more comes, a message that waits isn't found, a decision stops and leaves
/// nothing unsettled, and what is decided is told as undecided.
pub fn what_calls_do_not()
    ensures calm { ¬ FetchWork 2 0 3 (Err (refused.Down 0)) home invalid_taken invalid_taken Calm }
    ensures unseen { ¬ ReceiveWork 2 (Ok None) home written_since written_since Calm }
    ensures still_calm { ¬ DecideWork 1 (at 1) true (Err (refused.Stopped 0)) home (take 6 deciding) (take 6 deciding) Calm }
    ensures undecided { ¬ AskWork (at 1) (Ok answers.Undecided) home deciding deciding Calm }
{}
