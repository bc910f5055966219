//! What holds of checked code on a store that fits its schema. Each law is a function with an empty body, whose
//! clauses are proved once for all callers.

ghost use Rattle.std.specs.Prelude.{◌≡◌, List, [], Option, Some, None, Result, Ok, ℕ};
ghost use Rattle.thor_value.specs.declared.names.Oref.{Oref};
ghost use Rattle.thor_value.specs.declared.values.Value.{Value};
ghost use Rattle.class_defs.specs.ExpressionRules.{judged};
ghost use Rattle.law_type_soundness.specs.Fits.{FlowFits, Fresh, IsAnswered, MachineFits, StoreFits, ValueFits};
ghost use Rattle.class_defs.specs.Objects.{seen};
ghost use Rattle.class_defs.specs.Rules.{Sight, scope_of};
ghost use Rattle.class_defs.specs.Run.{Ran, begun, execute_all, meaning, run, world_of};
ghost use Rattle.class_defs.specs.SchemaRules.{item_rules, schema_rules};
ghost use Rattle.class_defs.specs.StatementRules.{block_rules};
ghost use Rattle.class_defs.specs.Statements.{block_of};
ghost use Rattle.class_defs.specs.Steps.{World};
ghost use Rattle.law_type_soundness.specs.Strict.{strict_block, strict_execute_all, strict_meaning};
ghost use Rattle.class_defs.specs.Touched.{HadObjects};
ghost use Rattle.class_defs.specs.Types.{type_of};
ghost use Rattle.class_defs.specs.declared.expressions.Expr.{Expr};
ghost use Rattle.class_defs.specs.declared.machine.Flow.{Flow};
ghost use Rattle.class_defs.specs.declared.machine.Machine.{Machine};
ghost use Rattle.class_defs.specs.declared.machine.Stop.{Stop};
ghost use Rattle.class_defs.specs.declared.rules.Position.{Position};
ghost use Rattle.class_defs.specs.declared.statements.Stmt.{Stmt};
ghost use Rattle.class_defs.specs.declared.store.Object.{Object};
ghost use Rattle.class_defs.specs.declared.store.Plain.{Plain};
ghost use Rattle.class_defs.specs.declared.store.Schema.{Schema};

/// The run of a checked transaction on a store that fits its schema ends by itself or in a fault, and the store
/// that it leaves fits again. It never meets a value of a wrong kind, a name that isn't declared, a method that isn't
/// there or a wrong number of arguments: the strict meaning, which gets stuck at these, does the same. Without
/// stand-in names it may end for want of a name, but never of an object.
pub fn checked_runs_fit()
    ensures store { (schema : Schema) → (repos : ℕ) → (tx : List Stmt) → (store : Plain) → (names : List Oref)
        → (r : Ran)
        → schema_rules schema repos ≡ [] → item_rules schema repos tx ≡ []
        → StoreFits schema store → Fresh store names
        → run schema tx store names ≡ Some r → StoreFits schema r.store }
    ensures answered { (schema : Schema) → (repos : ℕ) → (tx : List Stmt) → (store : Plain) → (names : List Oref)
        → schema_rules schema repos ≡ [] → item_rules schema repos tx ≡ []
        → StoreFits schema store → Fresh store names
        → IsAnswered (execute_all (world_of schema store) tx (begun names (Some 0))).0 }
    ensures objects { (schema : Schema) → (repos : ℕ) → (tx : List Stmt) → (store : Plain) → (names : List Oref)
        → schema_rules schema repos ≡ [] → item_rules schema repos tx ≡ []
        → StoreFits schema store → Fresh store names
        → HadObjects (execute_all (world_of schema store) tx (begun names None)).0 }
    ensures strictly { (schema : Schema) → (repos : ℕ) → (tx : List Stmt) → (store : Plain) → (names : List Oref)
        → schema_rules schema repos ≡ [] → item_rules schema repos tx ≡ []
        → StoreFits schema store → Fresh store names
        → strict_execute_all (world_of schema store) tx (begun names (Some 0))
        ≡ Some (execute_all (world_of schema store) tx (begun names (Some 0))) }
{}

/// In any state that fits what is in sight, an expression that breaks no rule gives a value of its type, and a
/// block that breaks none a result of the declared type; the state behind it fits, and neither gets stuck.
pub fn checked_code_keeps_states_fitting()
    ensures values { (s : Sight) → (objects : Oref → Option Object) → (n : ℕ) → (m : Machine)
        → (e : Expr) → (place : Position) → (v : Value) → (o : Machine)
        → let w : World = record { schema = s.schema; at_hand = objects } in
        schema_rules s.schema s.repos ≡ [] → MachineFits w s m → (judged s e).broken place ≡ []
        → (meaning w n).value_of e m ≡ (Ok v, o)
        → MachineFits w s o × ValueFits (seen w o) (type_of (scope_of s) e) v }
    ensures blocks { (s : Sight) → (objects : Oref → Option Object) → (n : ℕ) → (m : Machine)
        → (block : List Stmt) → (flow : Flow) → (o : Machine)
        → let w : World = record { schema = s.schema; at_hand = objects } in
        schema_rules s.schema s.repos ≡ [] → MachineFits w s m → block_rules s block ≡ []
        → block_of (meaning w n).execute block m ≡ (Ok flow, o)
        → MachineFits w s o × FlowFits (seen w o) s.result flow }
    ensures values_strictly { (s : Sight) → (objects : Oref → Option Object) → (n : ℕ) → (m : Machine)
        → (e : Expr) → (place : Position)
        → let w : World = record { schema = s.schema; at_hand = objects } in
        schema_rules s.schema s.repos ≡ [] → MachineFits w s m → (judged s e).broken place ≡ []
        → (strict_meaning w n).value_of e m ≡ Some ((meaning w n).value_of e m) }
    ensures blocks_strictly { (s : Sight) → (objects : Oref → Option Object) → (n : ℕ) → (m : Machine)
        → (block : List Stmt)
        → let w : World = record { schema = s.schema; at_hand = objects } in
        schema_rules s.schema s.repos ≡ [] → MachineFits w s m → block_rules s block ≡ []
        → strict_block (strict_meaning w n).execute block m ≡ Some (block_of (meaning w n).execute block m) }
{}

/// Where the strict meaning doesn't get stuck, it is the meaning: whatever the code, the world and the state.
pub fn strict_meaning_tells_what_runs_do()
    ensures values { (w : World) → (n : ℕ) → (e : Expr) → (m : Machine) → (r : Result Value Stop × Machine)
        → (strict_meaning w n).value_of e m ≡ Some r → (meaning w n).value_of e m ≡ r }
    ensures transactions { (w : World) → (tx : List Stmt) → (m : Machine) → (r : Result Flow Stop × Machine)
        → strict_execute_all w tx m ≡ Some r → execute_all w tx m ≡ r }
{}
