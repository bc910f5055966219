//! Worked rows of the rules.

ghost use Rattle.std.specs.Prelude.{◌≡◌, [], ◌∷◌, codes, None, Some};
ghost use Rattle.class_defs.specs.RuleRows.{named, int, class_type, number, field, box, sample, broken, told_of_item, told_of_body};
ghost use Rattle.class_defs.specs.Rules.{least};
ghost use Rattle.class_defs.specs.SchemaRules.{class_rules, schema_rules};
ghost use Rattle.class_defs.specs.declared.expressions.Expr.TheVariants as expr;
ghost use Rattle.class_defs.specs.declared.expressions.Operator.TheVariants.{Add, Equal, Unequal, Less};
ghost use Rattle.class_defs.specs.declared.rules.Rule.TheVariants.{T1, T2, T3, T4, T5, T6, T7, T8};
ghost use Rattle.class_defs.specs.declared.statements.Stmt.TheVariants as stmt;

/// Rules that a schema breaks.
fn schemas()
    ensures sample_breaks_none { schema_rules sample 1 ≡ [] }
    ensures second_field_of_a_name { least (class_rules sample 1 0 (record box { fields = field int (codes "n") 2 ∷ field int (codes "n") 3 ∷ [] })) ≡ broken 3 T1 }
    ensures field_and_method_of_a_name { least (class_rules sample 1 0 (record box { fields = field int (codes "n") 1 ∷ field int (codes "get") 0 ∷ [] })) ≡ broken 1 T1 }
{}

/// The lines on which an item breaks rules.
fn lines_in_items()
    ensures method_of_an_int { told_of_item (stmt.Evaluate (expr.Call (number 1 3) (named (codes "get") 4) []) ∷ []) ≡ broken 4 T2 }
    ensures root_assigned { told_of_item (stmt.Assign (named (codes "a") 2) 3 (expr.Null 3) ∷ []) ≡ broken 2 T3 }
    ensures argument_missing { told_of_item (stmt.Evaluate (expr.Call (expr.Variable (named (codes "a") 2)) (named (codes "add") 3) []) ∷ []) ≡ broken 3 T4 }
    ensures local_of_a_part_class { told_of_item (stmt.Var (class_type (codes "Part") 2) (named (codes "x") 3) 4 (expr.Null 4) ∷ []) ≡ broken 2 T5 }
    ensures part_made_alone { told_of_item (stmt.Evaluate (expr.New (named (codes "Part") 2) None) ∷ []) ≡ broken 2 T8 }
    ensures repository_that_is_not_there { told_of_item (stmt.Evaluate (expr.New (named (codes "Box") 2) (Some (record { line = 3; number = 2; number_line = 4 }))) ∷ []) ≡ broken 4 T8 }
    ensures local_ends_with_its_block { told_of_item (stmt.If (number 1 2) (stmt.Var int (named (codes "x") 3) 3 (number 1 3) ∷ []) ∷ stmt.Print (expr.Variable (named (codes "x") 4)) ∷ []) ≡ broken 4 T2 }
    ensures local_with_a_roots_name { told_of_item (stmt.Var int (named (codes "a") 2) 3 (number 1 3) ∷ []) ≡ broken 2 T1 }
{}

/// The lines on which the body of a method breaks rules.
fn lines_in_bodies()
    ensures part_given_to_itself { told_of_body 0 (stmt.FieldAssign (named (codes "p") 2) 3 (expr.Field (named (codes "p") 4)) ∷ []) ≡ broken 2 T6 }
    ensures part_made_and_called { told_of_body 0 (stmt.FieldAssign (named (codes "p") 2) 2 (expr.New (named (codes "Part") 2) None) ∷ stmt.Return (expr.Call (expr.Field (named (codes "p") 3)) (named (codes "get") 3) []) ∷ []) ≡ None }
    ensures at_in_a_method { told_of_body 0 (stmt.Evaluate (expr.New (named (codes "Box") 2) (Some (record { line = 3; number = 0; number_line = 4 }))) ∷ []) ≡ broken 3 T8 }
{}

/// What breaks no rule.
fn accepted()
    ensures nothing_is_broken_in_nothing { told_of_item ([]) ≡ None }
    ensures a_call_of_a_root { told_of_item (stmt.Print (expr.Call (expr.Variable (named (codes "a") 2)) (named (codes "get") 2) []) ∷ []) ≡ None }
    ensures an_argument_that_is_a_number { told_of_item (stmt.Evaluate (expr.Call (expr.Variable (named (codes "a") 2)) (named (codes "add") 2) ((expr.Call (expr.Variable (named (codes "a") 2)) (named (codes "get") 2) []) ∷ [])) ∷ []) ≡ None }
    ensures a_local_in_a_block_inside { told_of_item (stmt.Var int (named (codes "x") 2) 2 (number 1 2) ∷ stmt.While (number 1 3) (stmt.Print (expr.Variable (named (codes "x") 4)) ∷ []) ∷ []) ≡ None }
    ensures a_reference_beside_null { told_of_item (stmt.Print (expr.Binary Equal (expr.Variable (named (codes "a") 2)) (expr.Null 2) 2) ∷ []) ≡ None }
    ensures two_references_of_a_free_class { told_of_item (stmt.Print (expr.Binary Unequal (expr.Variable (named (codes "a") 2)) (expr.New (named (codes "Box") 2) None) 2) ∷ []) ≡ None }
    ensures a_repository_that_is_there { told_of_item (stmt.Evaluate (expr.New (named (codes "Box") 3) (Some (record { line = 3; number = 1; number_line = 3 }))) ∷ []) ≡ None }
    ensures a_field { told_of_body 0 (stmt.Return (expr.Field (named (codes "n") 2)) ∷ []) ≡ None }
    ensures a_part_that_is_called { told_of_body 0 (stmt.Return (expr.Call (expr.Field (named (codes "p") 2)) (named (codes "get") 2) []) ∷ []) ≡ None }
    ensures a_part_beside_null { told_of_body 0 (stmt.Return (expr.Binary Equal (expr.Null 2) (expr.Field (named (codes "p") 2)) 2) ∷ []) ≡ None }
    ensures a_new_part_for_an_owned_field { told_of_body 0 (stmt.FieldAssign (named (codes "p") 2) 2 (expr.New (named (codes "Part") 2) None) ∷ []) ≡ None }
    ensures null_for_an_owned_field { told_of_body 0 (stmt.FieldAssign (named (codes "p") 2) 2 (expr.Null 2) ∷ []) ≡ None }
    ensures this_of_a_free_class { told_of_body 0 (stmt.Evaluate (expr.This 2) ∷ []) ≡ None }
    ensures this_of_a_part_that_is_called { told_of_body 1 (stmt.Return (expr.Call (expr.This 2) (named (codes "get") 2) []) ∷ []) ≡ None }
    ensures a_local_with_a_roots_name { told_of_body 0 (stmt.Var int (named (codes "a") 2) 2 (number 1 2) ∷ []) ≡ None }
{}

/// Names that are declared twice.
fn declared_twice()
    ensures a_local_with_a_roots_name { told_of_item (stmt.Var int (named (codes "a") 3) 3 (number 1 3) ∷ []) ≡ broken 3 T1 }
    ensures a_local_with_a_roots_name_inside { told_of_item (stmt.While (number 1 2) (stmt.Var int (named (codes "a") 3) 3 (number 1 3) ∷ []) ∷ []) ≡ broken 3 T1 }
    ensures a_local_twice { told_of_item (stmt.Var int (named (codes "x") 2) 2 (number 1 2) ∷ stmt.Var int (named (codes "x") 3) 3 (number 1 3) ∷ []) ≡ broken 3 T1 }
    ensures a_local_in_two_blocks { told_of_item (stmt.IfElse (number 1 2) (stmt.Var int (named (codes "x") 2) 2 (number 1 2) ∷ []) (stmt.Var int (named (codes "x") 3) 3 (number 1 3) ∷ []) ∷ []) ≡ broken 3 T1 }
    ensures the_least_rule_on_a_line { told_of_item (stmt.Var int (named (codes "x") 4) 4 (expr.Null 4) ∷ stmt.Print (expr.Variable (named (codes "y") 4)) ∷ stmt.Var int (named (codes "x") 4) 4 (number 1 4) ∷ []) ≡ broken 4 T1 }
{}

/// Names that are not declared where they are used.
fn not_declared()
    ensures a_name_that_is_not_declared { told_of_item (stmt.Print (expr.Variable (named (codes "x") 5)) ∷ []) ≡ broken 5 T2 }
    ensures a_local_in_its_own_value { told_of_item (stmt.Var int (named (codes "x") 3) 3 (expr.Variable (named (codes "x") 3)) ∷ []) ≡ broken 3 T2 }
    ensures a_local_behind_its_block { told_of_item (stmt.If (number 1 2) (stmt.Var int (named (codes "x") 3) 3 (number 1 2) ∷ []) ∷ stmt.Print (expr.Variable (named (codes "x") 4)) ∷ []) ≡ broken 4 T2 }
    ensures a_local_of_then_in_else { told_of_item (stmt.IfElse (number 1 2) (stmt.Var int (named (codes "x") 3) 3 (number 1 2) ∷ []) (stmt.Print (expr.Variable (named (codes "x") 4)) ∷ []) ∷ []) ≡ broken 4 T2 }
    ensures a_method_of_an_int { told_of_item (stmt.Evaluate (expr.Call (expr.Parens (number 1 4) 4) (named (codes "get") 4) []) ∷ []) ≡ broken 4 T2 }
    ensures a_method_of_null { told_of_item (stmt.Evaluate (expr.Call (expr.Null 4) (named (codes "get") 4) []) ∷ []) ≡ broken 4 T2 }
    ensures a_method_that_the_class_lacks { told_of_item (stmt.Evaluate (expr.Call (expr.Variable (named (codes "a") 4)) (named (codes "gone") 4) []) ∷ []) ≡ broken 4 T2 }
    ensures a_class_that_is_not_declared { told_of_item (stmt.Evaluate (expr.New (named (codes "Gone") 4) None) ∷ []) ≡ broken 4 T2 }
    ensures a_type_that_is_not_declared { told_of_item (stmt.Var (class_type (codes "Gone") 4) (named (codes "x") 4) 4 (expr.Null 4) ∷ []) ≡ broken 4 T2 }
    ensures a_name_that_is_assigned_and_is_not_declared { told_of_item (stmt.Assign (named (codes "x") 4) 4 (number 1 4) ∷ []) ≡ broken 4 T2 }
    ensures an_untold_type_breaks_nothing_more { told_of_item (stmt.Print (expr.Negate (expr.Variable (named (codes "x") 4)) 2) ∷ []) ≡ broken 4 T2 }
    ensures a_call_of_an_untold_value { told_of_item (stmt.Evaluate (expr.Call (expr.Variable (named (codes "x") 4)) (named (codes "get") 3) []) ∷ []) ≡ broken 4 T2 }
    ensures too_many_arguments_one_of_which_breaks_a_rule { told_of_item (stmt.Evaluate (expr.Call (expr.Variable (named (codes "a") 3)) (named (codes "get") 3) ((expr.Variable (named (codes "x") 2)) ∷ [])) ∷ []) ≡ broken 2 T2 }
    ensures the_least_line { told_of_item (stmt.Print (expr.Variable (named (codes "x") 9)) ∷ stmt.Print (expr.Variable (named (codes "y") 8)) ∷ stmt.Print (expr.Null 10) ∷ []) ≡ broken 8 T2 }
    ensures a_root { told_of_body 0 (stmt.Return (expr.Variable (named (codes "a") 2)) ∷ []) ≡ broken 2 T2 }
    ensures a_field_that_the_class_lacks { told_of_body 0 (stmt.Return (expr.Field (named (codes "gone") 2)) ∷ []) ≡ broken 2 T2 }
    ensures a_field_that_is_assigned_and_that_the_class_lacks { told_of_body 0 (stmt.FieldAssign (named (codes "gone") 2) 2 (number 1 2) ∷ []) ≡ broken 2 T2 }
{}

/// Types that differ.
fn types_that_differ()
    ensures an_operator_with_a_reference { told_of_item (stmt.Evaluate (expr.Binary Add (number 1 2) (expr.Variable (named (codes "a") 2)) 3) ∷ []) ≡ broken 3 T3 }
    ensures less_of_null { told_of_item (stmt.Evaluate (expr.Binary Less (number 1 2) (expr.Null 2) 3) ∷ []) ≡ broken 3 T3 }
    ensures minus_of_a_reference { told_of_item (stmt.Evaluate (expr.Negate (expr.Variable (named (codes "a") 2)) 3) ∷ []) ≡ broken 3 T3 }
    ensures a_number_beside_null { told_of_item (stmt.Evaluate (expr.Binary Equal (number 1 2) (expr.Null 2) 3) ∷ []) ≡ broken 3 T3 }
    ensures null_beside_null { told_of_item (stmt.Evaluate (expr.Binary Unequal (expr.Null 2) (expr.Null 2) 3) ∷ []) ≡ broken 3 T3 }
    ensures null_in_parentheses_beside_null { told_of_item (stmt.Evaluate (expr.Binary Equal (expr.Parens (expr.Null 2) 2) (expr.Null 2) 3) ∷ []) ≡ broken 3 T3 }
    ensures a_condition_that_is_a_reference { told_of_item (stmt.If (expr.Variable (named (codes "a") 6)) ([]) ∷ []) ≡ broken 6 T3 }
    ensures a_printed_reference { told_of_item (stmt.Print (expr.Variable (named (codes "a") 6)) ∷ []) ≡ broken 6 T3 }
    ensures a_printed_null { told_of_item (stmt.Print (expr.Null 6) ∷ []) ≡ broken 6 T3 }
    ensures a_root_is_assigned { told_of_item (stmt.Assign (named (codes "a") 5) 5 (expr.Null 6) ∷ []) ≡ broken 5 T3 }
    ensures null_for_an_int { told_of_item (stmt.Var int (named (codes "x") 7) 7 (expr.Null 6) ∷ []) ≡ broken 7 T3 }
    ensures a_number_for_a_reference { told_of_item (stmt.Var (class_type (codes "Box") 7) (named (codes "x") 7) 7 (number 1 6) ∷ []) ≡ broken 7 T3 }
    ensures an_argument_of_another_type { told_of_item (stmt.Evaluate (expr.Call (expr.Variable (named (codes "a") 2)) (named (codes "add") 2) ((expr.Variable (named (codes "a") 3)) ∷ [])) ∷ []) ≡ broken 3 T3 }
    ensures a_result_of_another_type { told_of_body 0 (stmt.Return (expr.This 2) ∷ []) ≡ broken 2 T3 }
    ensures a_result_that_is_null { told_of_body 0 (stmt.Return (expr.Null 2) ∷ []) ≡ broken 2 T3 }
    ensures a_number_for_an_owned_field { told_of_body 0 (stmt.FieldAssign (named (codes "p") 2) 2 (number 1 3) ∷ []) ≡ broken 2 T3 }
    ensures a_part_that_is_kept_for_a_number { told_of_body 0 (stmt.FieldAssign (named (codes "n") 2) 2 (expr.Field (named (codes "p") 2)) ∷ []) ≡ broken 2 T3 }
    ensures a_part_that_is_given_back_for_a_number { told_of_body 0 (stmt.Return (expr.Field (named (codes "p") 2)) ∷ []) ≡ broken 2 T3 }
    ensures two_parts_side_by_side { told_of_body 0 (stmt.Evaluate (expr.Binary Equal (expr.Field (named (codes "p") 2)) (expr.Field (named (codes "p") 2)) 2) ∷ []) ≡ broken 2 T3 }
    ensures an_owned_field_as_an_argument { told_of_body 0 (stmt.Evaluate (expr.Call (expr.This 2) (named (codes "add") 3) ((expr.Field (named (codes "p") 2)) ∷ [])) ∷ []) ≡ broken 2 T3 }
    ensures a_new_part_for_a_number { told_of_body 0 (stmt.FieldAssign (named (codes "n") 2) 2 (expr.New (named (codes "Part") 2) None) ∷ []) ≡ broken 2 T3 }
    ensures a_new_free_object_for_an_owned_field { told_of_body 0 (stmt.FieldAssign (named (codes "p") 3) 3 (expr.New (named (codes "Box") 3) None) ∷ []) ≡ broken 3 T3 }
{}

/// Calls with a wrong number of arguments.
fn numbers_of_arguments()
    ensures too_few_arguments { told_of_item (stmt.Evaluate (expr.Call (expr.Variable (named (codes "a") 3)) (named (codes "add") 3) []) ∷ []) ≡ broken 3 T4 }
    ensures too_many_arguments { told_of_item (stmt.Evaluate (expr.Call (expr.Variable (named (codes "a") 3)) (named (codes "get") 3) ((number 1 3) ∷ [])) ∷ []) ≡ broken 3 T4 }
{}

/// Locals of a part class.
fn locals_of_a_part_class()
    ensures a_local_of_a_part_class { told_of_item (stmt.Var (class_type (codes "Part") 3) (named (codes "x") 3) 3 (expr.Null 3) ∷ []) ≡ broken 3 T5 }
{}

/// Owned fields that are handed on.
fn owned_fields_handed_on()
    ensures an_owned_field_that_is_read { told_of_body 0 (stmt.Evaluate (expr.Field (named (codes "p") 2)) ∷ []) ≡ broken 2 T6 }
    ensures an_owned_field_in_parentheses { told_of_body 0 (stmt.Evaluate (expr.Call (expr.Parens (expr.Field (named (codes "p") 2)) 2) (named (codes "get") 2) []) ∷ []) ≡ broken 2 T6 }
    ensures a_part_beside_null_in_parentheses { told_of_body 0 (stmt.Return (expr.Binary Equal (expr.Parens (expr.Null 2) 2) (expr.Field (named (codes "p") 2)) 2) ∷ []) ≡ broken 2 T6 }
    ensures an_owned_field_for_itself { told_of_body 0 (stmt.FieldAssign (named (codes "p") 2) 2 (expr.Field (named (codes "p") 2)) ∷ []) ≡ broken 2 T6 }
{}

/// Parts that hand themselves on.
fn parts_handing_themselves_on()
    ensures this_of_a_part { told_of_body 1 (stmt.Evaluate (expr.This 2) ∷ []) ≡ broken 2 T7 }
    ensures this_of_a_part_beside_null { told_of_body 1 (stmt.Return (expr.Binary Equal (expr.This 2) (expr.Null 2) 2) ∷ []) ≡ broken 2 T7 }
    ensures this_of_a_part_in_parentheses { told_of_body 1 (stmt.Return (expr.Call (expr.Parens (expr.This 2) 2) (named (codes "get") 2) []) ∷ []) ≡ broken 2 T7 }
{}

/// Parts that are made elsewhere, and repositories that are not there.
fn parts_made_elsewhere()
    ensures a_part_that_is_made { told_of_item (stmt.Evaluate (expr.New (named (codes "Part") 3) None) ∷ []) ≡ broken 3 T8 }
    ensures a_part_that_is_made_to_be_called { told_of_item (stmt.Evaluate (expr.Call (expr.New (named (codes "Part") 3) None) (named (codes "get") 3) []) ∷ []) ≡ broken 3 T8 }
    ensures a_repository_that_is_not_there { told_of_item (stmt.Evaluate (expr.New (named (codes "Box") 3) (Some (record { line = 3; number = 2; number_line = 3 }))) ∷ []) ≡ broken 3 T8 }
    ensures a_new_part_for_a_field_that_the_class_lacks { told_of_body 0 (stmt.FieldAssign (named (codes "gone") 3) 3 (expr.New (named (codes "Part") 2) None) ∷ []) ≡ broken 2 T8 }
    ensures at_in_a_method { told_of_body 0 (stmt.Evaluate (expr.New (named (codes "Box") 2) (Some (record { line = 2; number = 0; number_line = 2 }))) ∷ []) ≡ broken 2 T8 }
{}
