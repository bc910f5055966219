//! What an evaluation answers. Each law is a function with an empty body, whose clauses are proved once for all
//! callers.

ghost use Rattle.std.specs.Prelude.{◌≡◌, ◌⊎◌, ℕ, true, List, None, Err, Contains, find, is_some};
ghost use Rattle.std.specs.List.{AllByRecursion};
ghost use Rattle.thor_value.specs.FiniteMap.{get};
ghost use Rattle.thor_value.specs.Names.{same_oref};
ghost use Rattle.thor_value.specs.declared.names.Oref.{Oref};
ghost use Rattle.thor_value.specs.declared.values.Answer.{Answer};
ghost use Rattle.thor_value.specs.declared.values.Obj.{Obj};
ghost use Rattle.class_defs.specs.Objects.{take_name};
ghost use Rattle.class_defs.specs.Run.{begun, execute_all};
ghost use Rattle.class_defs.specs.Stored.{Stored};
ghost use Rattle.class_defs.specs.WellOwned.{IsWellOwned};
ghost use Rattle.class_defs.specs.declared.machine.Machine.{Machine};
ghost use Rattle.class_defs.specs.declared.machine.Stop.TheVariants as stop;
ghost use Rattle.class_defs.specs.declared.statements.Stmt.{Stmt};
ghost use Rattle.class_defs.specs.declared.store.Root.{Root};
ghost use Rattle.class_defs.specs.declared.store.Schema.{Schema};
ghost use Rattle.class_defs.specs.declared.store.Schemas.{Schemas};
ghost use Rattle.method_eval.specs.Answers.{evaluation};
ghost use Rattle.method_eval.specs.Names.{listed, supply};
ghost use Rattle.method_eval.specs.Viewed.{current, seen_in};
ghost use Rattle.method_eval.specs.declared.view.Ran.TheVariants.{Done, Need, NeedName};
ghost use Rattle.method_eval.specs.declared.view.View.{View};
ghost use Rattle.serial_model.specs.Replaying.{effect_of};
ghost use Rattle.serial_model.specs.Whole.{NoneDue, plain};
ghost use Rattle.law_eval.specs.Owners.{AreOwnersAbove, IsCheckedOver};
ghost use Rattle.law_eval.specs.Telling.{HasAsMuch, IsNeeded, TellsOfRun};

/// An evaluation asks for what isn't at hand, and only for that.
///
/// An object that it needs isn't in the view or is due; the owners that it tells with that are in the view and not due, or it
/// has made them itself. Each object that it has read was in the view and wasn't due: so it
/// doesn't go on past one that is missing. Where it needs a name, the names that it has left have none for a new object
/// there; and where no stand-in names stand behind them, what it has made took names that it had.
pub fn what_is_needed_is_not_at_hand()
    ensures need { (tx : List Stmt) → (schema : Schema) → (view : View) → (x : Oref) → (owners : List Oref)
        → evaluation tx schema view ≡ Need x owners → current schema (get view.objects x) ≡ None }
    ensures owners { (tx : List Stmt) → (schema : Schema) → (view : View) → (x : Oref) → (owners : List Oref)
        → evaluation tx schema view ≡ Need x owners
        → (m : Machine)
        × (execute_all (seen_in schema view.objects) tx (begun (supply view.names).waiting (supply view.names).stand_in) ≡ (Err (stop.Need x owners), m))
        × AllByRecursion (λ a. (is_some (current schema (get view.objects a)) ≡ true) ⊎ (is_some (find (same_oref a) m.created) ≡ true)) owners }
    ensures read { (tx : List Stmt) → (schema : Schema) → (view : View)
        → (answer : Answer) → (reads : List Oref) → (writes : List (Oref × Obj)) → (fresh : List Oref)
        → evaluation tx schema view ≡ Done answer reads writes fresh
        → AllByRecursion (λ x. is_some (current schema (get view.objects x)) ≡ true) reads }
    ensures name { (tx : List Stmt) → (schema : Schema) → (view : View) → (repo : ℕ)
        → evaluation tx schema view ≡ NeedName repo
        → (m : Machine)
        × (execute_all (seen_in schema view.objects) tx (begun (supply view.names).waiting (supply view.names).stand_in) ≡ (Err (stop.NeedName repo), m))
        × (take_name repo m.names ≡ None) }
    ensures fresh { (tx : List Stmt) → (schema : Schema) → (view : View)
        → (answer : Answer) → (reads : List Oref) → (writes : List (Oref × Obj)) → (fresh : List Oref)
        → evaluation tx schema view ≡ Done answer reads writes fresh → (supply view.names).stand_in ≡ None
        → AllByRecursion (λ x. Contains (supply view.names).waiting x) fresh }
{}

/// An evaluation answers as one that has more objects at hand, or it needs an object that this reads, and that isn't at hand
/// here or is due. What it needs, each view needs that has the same at hand and not that object.
pub fn what_is_read_and_not_at_hand_is_needed()
    ensures exactly { (tx : List Stmt) → (schema : Schema) → (view : View) → (other : View) → HasAsMuch schema view other
        → (answer : Answer) → (reads : List Oref) → (writes : List (Oref × Obj)) → (fresh : List Oref)
        → evaluation tx schema other ≡ Done answer reads writes fresh
        → (evaluation tx schema view ≡ Done answer reads writes fresh)
        ⊎ ((x : Oref) × (owners : List Oref) × IsNeeded tx schema view x owners × Contains reads x) }
    ensures there { (tx : List Stmt) → (schema : Schema) → (view : View) → (other : View) → HasAsMuch schema view other
        → (x : Oref) → (owners : List Oref) → evaluation tx schema view ≡ Need x owners
        → current schema (get other.objects x) ≡ None → evaluation tx schema other ≡ Need x owners }
{}

/// Over a part of a map that fits, a checked transaction tells with an object that it needs just the owners above that
/// object in the map, nearest first. In a well owned map there is one such list.
pub fn owners_told_are_those_above()
    ensures above { (s : Schemas) → (N : Stored) → (schema : Schema) → (repos : ℕ) → (tx : List Stmt) → (view : View)
        → IsCheckedOver s N schema repos tx view → (x : Oref) → (owners : List Oref)
        → evaluation tx schema view ≡ Need x owners → AreOwnersAbove s N.objects x owners }
    ensures one { (s : Schemas) → (N : Stored) → (x : Oref) → (owners : List Oref) → (others : List Oref)
        → IsWellOwned s N → AreOwnersAbove s N.objects x owners → AreOwnersAbove s N.objects x others → owners ≡ others }
{}

/// An answer depends on the objects only through those that were read: on a view that has the same of these, and the same
/// names, the evaluation gives the same. So more objects at hand don't change it.
pub fn answers_hold_where_the_objects_read_are_the_same()
    ensures { (tx : List Stmt) → (schema : Schema) → (view : View) → (other : View)
        → (answer : Answer) → (reads : List Oref) → (writes : List (Oref × Obj)) → (fresh : List Oref)
        → evaluation tx schema view ≡ Done answer reads writes fresh
        → supply other.names ≡ supply view.names → other.epoch ≡ view.epoch
        → ((x : Oref) → Contains reads x → current schema (get other.objects x) ≡ current schema (get view.objects x))
        → evaluation tx schema other ≡ Done answer reads writes fresh }
{}

/// On a view that has a whole store at hand, none of it due, an evaluation with listed names answers where the run with
/// these names is defined, and what that gives.
pub fn evaluations_of_whole_stores_are_runs()
    ensures { (tx : List Stmt) → (schema : Schema) → (view : View) → (names : List Oref) → (roots : List Root)
        → NoneDue schema view
        → TellsOfRun names roots view (evaluation tx schema (record view { names = listed names })) (effect_of schema tx (plain roots view) names) }
{}
