//! That a run depends on the names of its new objects only up to renaming, so that whether it is defined doesn't
//! hang on them. Each law is a function with an empty body, whose clauses are proved once for all callers.
//!
//! In each law a test tells which names are fresh: no root and no object of the store refers to one, and new
//! objects take no other.

ghost use Rattle.std.specs.Prelude.{◌≡◌, ◌++◌, Bool, true, false, List, [], Option, Some, None, Result, Ok, IsSomeAnd, ℕ};
ghost use Rattle.std.specs.List.{AllByRecursion};
ghost use Rattle.thor_value.specs.FiniteMap.{get, keys};
ghost use Rattle.thor_value.specs.declared.names.Oref.{Oref};
ghost use Rattle.thor_value.specs.declared.values.Answer.TheVariants as answer;
ghost use Rattle.law_renaming.specs.Renaming.{AtHand, HadNames, SameRan, SameRun, Takeable, Unused, kept_names};
ghost use Rattle.class_defs.specs.Objects.{stand_in_name};
ghost use Rattle.class_defs.specs.Run.{Ran, begun, execute_all, run, world_of};
ghost use Rattle.class_defs.specs.Steps.{World};
ghost use Rattle.class_defs.specs.Touched.{HadObjects};
ghost use Rattle.class_defs.specs.declared.machine.Flow.{Flow};
ghost use Rattle.class_defs.specs.declared.machine.Machine.{Machine};
ghost use Rattle.class_defs.specs.declared.machine.Stop.{Stop};
ghost use Rattle.class_defs.specs.declared.statements.Stmt.{Stmt};
ghost use Rattle.class_defs.specs.declared.store.Plain.{Plain};
ghost use Rattle.class_defs.specs.declared.store.Schema.{Schema};

/// Two evaluations of a transaction over the same objects, whose new objects take names of two lists, go the
/// same way but for names, unless one of them wants a name. One that has stand-in names never does.
///
/// So the one ends in a fault where the other does, and in the same; and objects that were created stay
/// behind the one where they stay behind the other.
pub fn runs_differ_in_names_alone()
    ensures same { (w : World) → (tx : List Stmt) → (fresh : Oref → Bool)
        → (names : List Oref) → (stand_in : Option ℕ) → (others : List Oref) → (other_stand_in : Option ℕ)
        → (r : Result Flow Stop) → (q : Result Flow Stop) → (m : Machine) → (n : Machine)
        → Unused fresh w → Takeable fresh names → Takeable fresh others
        → execute_all w tx (begun names stand_in) ≡ (r, m)
        → execute_all w tx (begun others other_stand_in) ≡ (q, n)
        → HadNames r → HadNames q → SameRun fresh r q m n }
    ensures stand_ins { (w : World) → (tx : List Stmt) → (fresh : Oref → Bool) → (names : List Oref)
        → (r : Result Flow Stop) → (m : Machine)
        → Unused fresh w → Takeable fresh names
        → execute_all w tx (begun names (Some 0)) ≡ (r, m) → HadNames r }
{}

/// An evaluation with names at hand alone, which ends without a fault, has taken just the names for which the
/// run is defined, and has printed its answer. Where all names at hand lie in one repository, it has taken
/// them in their order, and the others still wait.
pub fn runs_take_the_names_that_they_need()
    ensures defined { (schema : Schema) → (tx : List Stmt) → (store : Plain) → (fresh : Oref → Bool)
        → (at_hand : List Oref) → (flow : Flow) → (m : Machine)
        → Unused fresh (world_of schema store) → Takeable fresh at_hand
        → execute_all (world_of schema store) tx (begun at_hand None) ≡ (Ok flow, m)
        → IsSomeAnd (run schema tx store m.created)
        (λ r. (r.answer ≡ answer.Ints m.printed) × (r.touched ≡ keys m.reads)) }
    ensures takeable { (schema : Schema) → (tx : List Stmt) → (store : Plain) → (fresh : Oref → Bool)
        → (at_hand : List Oref) → (outcome : Result Flow Stop) → (m : Machine)
        → Unused fresh (world_of schema store) → Takeable fresh at_hand
        → execute_all (world_of schema store) tx (begun at_hand None) ≡ (outcome, m) → HadNames outcome
        → Takeable fresh m.created }
    ensures in_order { (schema : Schema) → (tx : List Stmt) → (store : Plain) → (fresh : Oref → Bool)
        → (at_hand : List Oref) → (outcome : Result Flow Stop) → (m : Machine) → (repo : ℕ)
        → Unused fresh (world_of schema store) → Takeable fresh at_hand
        → execute_all (world_of schema store) tx (begun at_hand None) ≡ (outcome, m) → HadNames outcome
        → AllByRecursion (λ x. x.repo ≡ repo) at_hand
        → m.created ++ m.names.waiting ≡ at_hand }
{}

/// Where a run is undefined without names, and not for want of an object, an evaluation with names at hand
/// wants a name or ends without a fault, with names for which the run is defined.
pub fn runs_are_defined_for_names_at_hand()
    ensures created { (schema : Schema) → (tx : List Stmt) → (store : Plain) → (fresh : Oref → Bool)
        → (at_hand : List Oref) → (outcome : Result Flow Stop) → (m : Machine)
        → Unused fresh (world_of schema store) → Takeable fresh at_hand
        → run schema tx store [] ≡ None
        → HadObjects (execute_all (world_of schema store) tx (begun [] (Some 0))).0
        → execute_all (world_of schema store) tx (begun at_hand None) ≡ (outcome, m) → HadNames outcome
        → IsSomeAnd (run schema tx store m.created)
        (λ r. (r.answer ≡ answer.Ints m.printed) × (r.touched ≡ keys m.reads)) }
    ensures defined { (schema : Schema) → (tx : List Stmt) → (store : Plain) → (fresh : Oref → Bool)
        → (names : List Oref) → (r : Ran) → (at_hand : List Oref) → (outcome : Result Flow Stop) → (m : Machine)
        → Unused fresh (world_of schema store) → Takeable fresh names → Takeable fresh at_hand
        → run schema tx store names ≡ Some r
        → execute_all (world_of schema store) tx (begun at_hand None) ≡ (outcome, m) → HadNames outcome
        → IsSomeAnd (run schema tx store (kept_names outcome m)) (SameRan fresh names (kept_names outcome m) r) }
{}

/// Runs of a transaction on a store that are defined for two lists of names give the same but for names.
pub fn answers_hang_on_no_names()
    ensures same { (schema : Schema) → (tx : List Stmt) → (store : Plain) → (fresh : Oref → Bool)
        → (names : List Oref) → (others : List Oref) → (r : Ran) → (q : Ran)
        → Unused fresh (world_of schema store) → Takeable fresh names → Takeable fresh others
        → run schema tx store names ≡ Some r → run schema tx store others ≡ Some q
        → SameRan fresh names others r q }
{}

/// The store behind a run refers to no name that was fresh before it and that it didn't take, and the run has
/// written no object under such a name.
pub fn runs_leave_names_unused()
    ensures unused { (schema : Schema) → (tx : List Stmt) → (store : Plain) → (fresh : Oref → Bool)
        → (still_fresh : Oref → Bool) → (names : List Oref) → (r : Ran)
        → Unused fresh (world_of schema store) → Takeable fresh names
        → run schema tx store names ≡ Some r
        → ((x : Oref) → still_fresh x ≡ true → fresh x ≡ true)
        → ((k : ℕ) → still_fresh (stand_in_name k) ≡ true)
        → AllByRecursion (λ x. still_fresh x ≡ false) names
        → Unused still_fresh (world_of schema r.store) }
    ensures unwritten { (schema : Schema) → (tx : List Stmt) → (store : Plain) → (fresh : Oref → Bool)
        → (still_fresh : Oref → Bool) → (names : List Oref) → (r : Ran) → (x : Oref)
        → Unused fresh (world_of schema store) → Takeable fresh names
        → run schema tx store names ≡ Some r
        → ((y : Oref) → still_fresh y ≡ true → fresh y ≡ true)
        → ((k : ℕ) → still_fresh (stand_in_name k) ≡ true)
        → AllByRecursion (λ y. still_fresh y ≡ false) names
        → still_fresh x ≡ true → get r.store.objects x ≡ get store.objects x }
{}

/// A client has names at hand without objects, to which nothing refers. Where a run is defined without names,
/// they are such names behind it. Where it isn't, and not for want of an object, the client evaluates the
/// transaction with them: it wants more names, or it has found names for which the run is defined, with the
/// printed values as its answer, and the names that still wait are such names behind it.
pub fn names_at_hand_last()
    ensures without { (schema : Schema) → (tx : List Stmt) → (store : Plain)
        → (at_hand : List Oref) → (r : Ran)
        → AtHand at_hand (world_of schema store)
        → run schema tx store [] ≡ Some r
        → AtHand at_hand (world_of schema r.store) }
    ensures created { (schema : Schema) → (tx : List Stmt) → (store : Plain)
        → (at_hand : List Oref) → (outcome : Result Flow Stop) → (m : Machine)
        → AtHand at_hand (world_of schema store)
        → run schema tx store [] ≡ None
        → HadObjects (execute_all (world_of schema store) tx (begun [] (Some 0))).0
        → execute_all (world_of schema store) tx (begun at_hand None) ≡ (outcome, m) → HadNames outcome
        → IsSomeAnd (run schema tx store m.created)
        (λ r. (r.answer ≡ answer.Ints m.printed) × AtHand m.names.waiting (world_of schema r.store)) }
{}
