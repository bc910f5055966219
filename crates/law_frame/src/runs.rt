//! What holds of every run of a transaction. Each law is a function with an empty body, whose clauses are
//! proved once for all callers.

ghost use Rattle.std.specs.Prelude.{◌≡◌, List, [], Option, Some, None, Result, ℕ};
ghost use Rattle.std.specs.BTreeMap.{is_at};
ghost use Rattle.std.specs.Map.{lookup};
ghost use Rattle.thor_value.specs.FiniteMap.{get, keys};
ghost use Rattle.thor_value.specs.Names.{oref_cmp};
ghost use Rattle.thor_value.specs.declared.names.Oref.{Oref};
ghost use Rattle.thor_value.specs.declared.values.Answer.TheVariants as answer;
ghost use Rattle.thor_value.specs.declared.values.Fault.{Fault};
ghost use Rattle.class_defs.specs.Run.{Ran, begun, execute_all, run};
ghost use Rattle.class_defs.specs.Touched.{AgreeOn, HadObjects, on_store};
ghost use Rattle.class_defs.specs.declared.machine.Flow.{Flow};
ghost use Rattle.class_defs.specs.declared.machine.Machine.{Machine};
ghost use Rattle.class_defs.specs.declared.machine.Stop.{Stop};
ghost use Rattle.class_defs.specs.declared.statements.Stmt.{Stmt};
ghost use Rattle.class_defs.specs.declared.store.Object.{Object};
ghost use Rattle.class_defs.specs.declared.store.Plain.{Plain};
ghost use Rattle.class_defs.specs.declared.store.Schema.{Schema};

/// A run that ends in a fault leaves the store as it was, and has written nothing.
pub fn fault_leaves_the_store()
    ensures store { (schema : Schema) → (tx : List Stmt) → (store : Plain) → (names : List Oref)
        → (r : Ran) → (f : Fault)
        → run schema tx store names ≡ Some r → r.answer ≡ answer.Fault f → r.store ≡ store }
    ensures written { (schema : Schema) → (tx : List Stmt) → (store : Plain) → (names : List Oref)
        → (r : Ran) → (f : Fault)
        → run schema tx store names ≡ Some r → r.answer ≡ answer.Fault f → r.written ≡ [] }
    ensures names { (schema : Schema) → (tx : List Stmt) → (store : Plain) → (names : List Oref)
        → (r : Ran) → (f : Fault)
        → run schema tx store names ≡ Some r → r.answer ≡ answer.Fault f → names ≡ [] }
{}

/// A run leaves each object that it didn't write, the epoch and the roots.
pub fn run_changes_what_it_wrote()
    ensures objects { (schema : Schema) → (tx : List Stmt) → (store : Plain) → (names : List Oref)
        → (r : Ran) → (x : Oref)
        → run schema tx store names ≡ Some r → lookup (is_at (oref_cmp x)) r.written ≡ None
        → get r.store.objects x ≡ get store.objects x }
    ensures epoch { (schema : Schema) → (tx : List Stmt) → (store : Plain) → (names : List Oref)
        → (r : Ran)
        → run schema tx store names ≡ Some r → r.store.epoch ≡ store.epoch }
    ensures roots { (schema : Schema) → (tx : List Stmt) → (store : Plain) → (names : List Oref)
        → (r : Ran)
        → run schema tx store names ≡ Some r → r.store.roots ≡ store.roots }
{}

/// A run depends on the objects only through those that it touched: over objects that agree with the first
/// ones on the names that it read, it ends in the same way and in the same state. So it has, on any store
/// that agrees on what it touched, the same answer and touches and writes the same.
///
/// Where a run stopped because an object was not at hand, this says nothing.
pub fn runs_depend_on_what_they_touch()
    ensures state { (schema : Schema) → (objects : Oref → Option Object) → (others : Oref → Option Object)
        → (tx : List Stmt) → (names : List Oref) → (stand_in : Option ℕ)
        → (outcome : Result Flow Stop) → (m : Machine)
        → execute_all (record { schema = schema; at_hand = objects }) tx (begun names stand_in) ≡ (outcome, m)
        → HadObjects outcome → AgreeOn (keys m.reads) objects others
        → execute_all (record { schema = schema; at_hand = others }) tx (begun names stand_in) ≡ (outcome, m) }
    ensures store { (schema : Schema) → (tx : List Stmt) → (store : Plain) → (other : Plain)
        → (names : List Oref) → (r : Ran)
        → run schema tx store names ≡ Some r → AgreeOn r.touched (get store.objects) (get other.objects)
        → run schema tx other names ≡ Some (on_store other r) }
{}
