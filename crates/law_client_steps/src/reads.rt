//! What a fitting client's accepted requests have read.

ghost use Rattle.client_cache.specs.Copies.{kept};
ghost use Rattle.law_cache_coherence.specs.Seen.{IsSeenRight};
ghost use Rattle.client_state.specs.Calling.{upto_in};
ghost use Rattle.client_state.specs.Moving.{InSession};
ghost use Rattle.client_state.specs.declared.held.Held.{Held};
ghost use Rattle.log_entries.specs.declared.request.Request.{Request};
ghost use Rattle.law_client_steps.specs.Owed.{ClientFits};
ghost use Rattle.spec_history.specs.History.{known_by, state};
ghost use Rattle.spec_history.specs.Requests.{has_read};
ghost use Rattle.session_outbox.specs.declared.answers.At.{At};
ghost use Rattle.client_port.specs.Views.{View};
ghost use Rattle.client_port.specs.Works.{CommitWork, Does, PrepareWork};
ghost use Rattle.spec_trace.specs.Trace.{entries};
ghost use Rattle.std.specs.List.{slice_get};
ghost use Rattle.std.specs.Prelude.{Bool, None, Ok, Some, true, ℕ, ◌<◌, ◌≡◌};
ghost use Rattle.thor_value.specs.FiniteMap.{get};
ghost use Rattle.thor_value.specs.declared.names.Oref.{Oref};
ghost use Rattle.thor_value.specs.declared.names.Ts.{Ts};
ghost use Rattle.thor_value.specs.declared.values.Obj.{Obj};

/// What a client that fits has read by its copies is what stands at the repository as its request commits there, or is
/// prepared, whatever others have done since: the request goes out in the link's session, acknowledges all messages
/// that were taken, and its timestamp is new there.
pub fn accepted_reads_stand()
    ensures commit_one { (old new : View) (at : At) (q : Request) (place : ℕ) (held : Held) (committed : Ts → Bool) → (d : Does {X = ℕ} old new at.repo (Ok place) (CommitWork at.session q (Ok place))) →
        IsSeenRight new at.repo committed → at.repo < old.opened.repos → InSession at held → q.upto ≡ upto_in (slice_get held.links.items at.repo) → known_by (old.opened.base at.repo) (entries d.at) q.tx ≡ None →
        (old.opened.base at.repo).tells ≡ true → ClientFits old committed held → (x : Oref) (o : Obj) → x.repo ≡ at.repo → has_read q x ≡ true → kept held.cache.cache x ≡ Some o →
        get (state (old.opened.base at.repo) (entries d.at)).objects x ≡ Some o }
    ensures prepare { (old new : View) (at : At) (q : Request) (place : ℕ) (held : Held) (committed : Ts → Bool) → (d : Does {X = ℕ} old new at.repo (Ok place) (PrepareWork at.session q (Ok place))) →
        IsSeenRight new at.repo committed → at.repo < old.opened.repos → InSession at held → q.upto ≡ upto_in (slice_get held.links.items at.repo) → known_by (old.opened.base at.repo) (entries d.at) q.tx ≡ None →
        (old.opened.base at.repo).tells ≡ true → ClientFits old committed held → (x : Oref) (o : Obj) → x.repo ≡ at.repo → has_read q x ≡ true → kept held.cache.cache x ≡ Some o →
        get (state (old.opened.base at.repo) (entries d.at)).objects x ≡ Some o }
{}
