//! What may happen between two calls of `Paused::go`. The law is a function with an empty body, whose clauses are
//! proved once.

ghost use Rattle.std.specs.Prelude.{◌≡◌, ◌++◌, ℕ, List, Option};
ghost use Rattle.thor_value.specs.declared.names.Oref.{Oref};
ghost use Rattle.class_defs.specs.declared.machine.Machine.{Machine};
ghost use Rattle.class_defs.specs.declared.statements.Stmt.{Stmt};
ghost use Rattle.class_defs.specs.declared.store.Object.{Object};
ghost use Rattle.class_defs.specs.declared.store.Schema.{Schema};
ghost use Rattle.client_cache.specs.Copies.{Contents};
ghost use Rattle.method_eval.specs.Names.{Names, grant};
ghost use Rattle.lang_small_steps.specs.Reaches.{Agree};
ghost use Rattle.lang_small_steps.specs.Resume.{Left};
ghost use Rattle.paused_eval.specs.Copies.{state_with};
ghost use Rattle.paused_eval.specs.Standing.{Stands, newly_granted};

/// Between two calls copies of other objects than those that were read may come and go, and pages of names may be granted:
/// then what is left comes to what the transaction comes to from the start over those copies and with those names.
pub fn what_stands_goes_on_later()
    ensures objects { (s : Schema) → (f : Oref → Option Object) → (g : Oref → Option Object) → (tx : List Stmt) → (given : List Oref) → (l : Left) → (m : Machine)
        → Stands s f tx given l m → Agree f g m → Stands s g tx given l m }
    ensures names { (s : Schema) → (f : Oref → Option Object) → (tx : List Stmt) → (given : List Oref) → (l : Left) → (m : Machine) → (c : Contents) → (n : Names) → (repo : ℕ) → (page : ℕ)
        → Stands s f tx given l (state_with m c n) → Stands s f tx (given ++ newly_granted n repo page) l (state_with m c (grant n repo page)) }
{}
