//! What is proved of the states for which logs stand. Each law is a function with an empty body, whose
//! clauses are the law.

ghost use Rattle.std.specs.List.{fold};
ghost use Rattle.std.specs.Option.{option_or};
ghost use Rattle.std.specs.Prelude.{List, None, Option, Some, ◌<◌, ◌≡◌, ℕ};
ghost use Rattle.thor_value.specs.declared.names.Oref.{Oref};
ghost use Rattle.log_entries.specs.declared.entry.Entry.{Entry};
ghost use Rattle.log_codec.specs.Checkpoint.{StateFits, state_format};
ghost use Rattle.log_codec.specs.Format.{value_of};
ghost use Rattle.log_codec.specs.Grammar.{body_format};
ghost use Rattle.log_codec.specs.declared.body.Body.{Body};
ghost use Rattle.log_codec.specs.declared.body.Body.TheVariants.{Entry as AnEntry, Installed};
ghost use Rattle.log_codec.specs.declared.state.State.{State};
ghost use Rattle.log_frame.specs.Log.{Opened, new_log, with_body};
ghost use Rattle.commit_log.specs.Opening.{IsTorn};
ghost use Rattle.commit_log.specs.Recovered.{after, next, sequence_end, stands, state_in, whole};
ghost use Rattle.thor_value.specs.declared.values.Obj.{Obj};
ghost use Rattle.commit_log.specs.Values.{HasPaged, Pages, last_write, migrated, object_in, on_page, value, writes_of, written_last};

/// Behind one record more a log stands for the state with that record put behind it, where it can come next, and
/// else for nothing. A log that begins with a state, and has no record yet, stands for it, where a log can begin so.
pub fn logs_grow()
    ensures step { (log : Opened) (body : List ℕ) (s : State) (b : Body) → state_in log ≡ Some s → value_of body_format body ≡ Some b → state_in (with_body log body) ≡ next s b }
    ensures first { (sequence : ℕ) (head : List ℕ) (s : State) → sequence < sequence_end → value_of state_format head ≡ Some s → state_in (new_log sequence head) ≡ whole s }
{}

/// The buffer behind records has the last write of each name behind the last install of its page; what was
/// buffered before counts where no record has written the name nor installed its page.
pub fn values_are_last_writes()
    ensures { (bodies : List Body) (s : State) (x : Oref) → object_in (fold after s bodies).mob x ≡ last_write x s bodies (object_in s.mob x) }
{}

/// An entry changes what is said under the names that it commits, and under no other.
pub fn entries_say_their_writes()
    ensures { (pages : Pages) (s : State) (e : Entry) (x : Oref) → value pages (after s (AnEntry e)) x ≡ option_or (written_last x (object_in s.mob x) (writes_of s e)) (on_page pages s.installed x) }
{}

/// Where a side has what is said of its page, that it comes into use changes nothing of what is said.
pub fn installs_say_the_same()
    ensures { (pages : Pages) (s : State) (page side : ℕ) → ((y : Oref) → y.page ≡ page → pages y.page side y ≡ value pages s y) → (x : Oref) → value pages (after s (Installed page side)) x ≡ value pages s x }
{}

/// A migration changes nothing of what is said: what stood on installed pages stands in the buffer, below what the buffer had.
pub fn migrations_say_the_same()
    ensures { (pages : Pages) (paged : List (Oref × Obj)) (s : State) → StateFits s → HasPaged pages s.installed paged → (x : Oref) → value pages (migrated paged s) x ≡ value pages s x }
{}

/// Where a log disk is damaged the disks stand for no state.
pub fn damaged_logs_stand_for_nothing()
    ensures { (images : ℕ → List ℕ) (d place : ℕ) → IsTorn images d place → stands images ≡ None }
{}
