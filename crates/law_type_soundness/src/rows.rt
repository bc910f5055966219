//! Worked rows of stores that fit their schema, and of what gets stuck.

ghost use Rattle.std.specs.Prelude.{◌≡◌, [], ◌∷◌, codes, false, None, pos, true};
ghost use Rattle.thor_value.specs.declared.values.Value.TheVariants as value;
ghost use Rattle.law_type_soundness.specs.FitRows.{gets_stuck, in_slot, store_of};
ghost use Rattle.law_type_soundness.specs.Fits.{Fresh, StoreFits};
ghost use Rattle.class_defs.specs.RuleRows.{named, number, sample};
ghost use Rattle.class_defs.specs.declared.expressions.Expr.TheVariants as expr;
ghost use Rattle.class_defs.specs.declared.statements.Stmt.TheVariants as stmt;

/// Stores that fit the schema, and stores that don't.
fn stores()
    ensures box_without_a_part { StoreFits sample (store_of (value.Int (pos 5) ∷ value.Null ∷ [])) }
    ensures box_with_a_part { StoreFits sample (store_of (value.Int (pos 5) ∷ value.Ref (in_slot 1) ∷ [])) }
    ensures null_for_a_number { StoreFits sample (store_of (value.Null ∷ value.Null ∷ [])) → ⊥ }
    ensures box_for_a_part { StoreFits sample (store_of (value.Int (pos 5) ∷ value.Ref (in_slot 0) ∷ [])) → ⊥ }
    ensures part_that_is_not_there { StoreFits sample (store_of (value.Int (pos 5) ∷ value.Ref (in_slot 2) ∷ [])) → ⊥ }
    ensures field_missing { StoreFits sample (store_of (value.Int (pos 5) ∷ [])) → ⊥ }
    ensures new_name { Fresh (store_of (value.Int (pos 5) ∷ value.Null ∷ [])) (in_slot 2 ∷ in_slot 3 ∷ []) }
    ensures name_that_is_taken { Fresh (store_of (value.Int (pos 5) ∷ value.Null ∷ [])) (in_slot 1 ∷ []) → ⊥ }
    ensures name_that_comes_twice { Fresh (store_of (value.Int (pos 5) ∷ value.Null ∷ [])) (in_slot 2 ∷ in_slot 2 ∷ []) → ⊥ }
{}

/// What gets stuck where a run goes on with a stand-in.
fn stuck()
    ensures null_is_no_number { gets_stuck (store_of (value.Int (pos 5) ∷ value.Null ∷ [])) (stmt.Print (expr.Null 1)) ≡ true }
    ensures number_is_one { gets_stuck (store_of (value.Int (pos 5) ∷ value.Null ∷ [])) (stmt.Print (number 3 1)) ≡ false }
    ensures name_not_declared { gets_stuck (store_of (value.Int (pos 5) ∷ value.Null ∷ [])) (stmt.Evaluate (expr.Variable (named (codes "b") 1))) ≡ true }
    ensures name_declared { gets_stuck (store_of (value.Int (pos 5) ∷ value.Null ∷ [])) (stmt.Evaluate (expr.Variable (named (codes "a") 1))) ≡ false }
    ensures class_not_declared { gets_stuck (store_of (value.Int (pos 5) ∷ value.Null ∷ [])) (stmt.Evaluate (expr.New (named (codes "Bag") 1) None)) ≡ true }
    ensures method_there { gets_stuck (store_of (value.Int (pos 5) ∷ value.Null ∷ [])) (stmt.Print (expr.Call (expr.Variable (named (codes "a") 1)) (named (codes "get") 1) [])) ≡ false }
    ensures method_not_there { gets_stuck (store_of (value.Int (pos 5) ∷ value.Null ∷ [])) (stmt.Print (expr.Call (expr.Variable (named (codes "a") 1)) (named (codes "put") 1) [])) ≡ true }
    ensures argument_missing { gets_stuck (store_of (value.Int (pos 5) ∷ value.Null ∷ [])) (stmt.Print (expr.Call (expr.Variable (named (codes "a") 1)) (named (codes "add") 1) [])) ≡ true }
    ensures field_of_a_wrong_kind { gets_stuck (store_of (value.Null ∷ value.Null ∷ [])) (stmt.Print (expr.Call (expr.Variable (named (codes "a") 1)) (named (codes "get") 1) [])) ≡ true }
{}
