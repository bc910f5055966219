//! Worked rows of texts.

ghost use Rattle.std.specs.Prelude.{◌≡◌, [], ◌∷◌, codes, pos, None, Some, true, false};
ghost use Rattle.thor_value.specs.Spelling.{value_bytes};
ghost use Rattle.thor_value.specs.Words.{fits_word};
ghost use Rattle.thor_value.specs.declared.values.Value.TheVariants as value;
ghost use Rattle.class_defs.specs.Expressions.{same_value};
ghost use Rattle.class_defs.specs.Kinds.{printed_as};
ghost use Rattle.class_defs.specs.Printed.{word_text};
ghost use Rattle.class_defs.specs.RuleRows.{named, number, broken, int};
ghost use Rattle.class_defs.specs.Spelling.{literal_word};
ghost use Rattle.class_defs.specs.Steps.{beginning, fitted};
ghost use Rattle.class_defs.specs.declared.expressions.Expr.TheVariants as expr;
ghost use Rattle.class_defs.specs.declared.expressions.Operator.TheVariants.{Add, Equal, Unequal, Less};
ghost use Rattle.class_defs.specs.declared.literals.Literal.TheVariants as literal;
ghost use Rattle.class_defs.specs.declared.rules.Rule.TheVariants.{O2, T2, T3};
ghost use Rattle.class_defs.specs.declared.statements.Stmt.TheVariants as stmt;
ghost use Rattle.class_defs.specs.declared.types.ExprType.TheVariants as type;
ghost use Rattle.class_defs.specs.declared.upgrades.Tf.TheVariants as tf;
ghost use Rattle.rows_language.specs.RunRows.{call, evaluate, local, print};
ghost use Rattle.rows_language.specs.TextRows.{a_text, gave_noted, n, note_becomes, note_of, quoted, quoted_tf, ran_noted, told_of_note, told_of_texts, var_text};
ghost use Rattle.rows_language.specs.UpgradeRows.{becomes, old};

/// What texts are, and their bytes.
fn texts()
    ensures bytes { value_bytes (value.Text (codes "ab")) ≡ 4 ∷ 2 ∷ 97 ∷ 98 ∷ [] }
    ensures empty { value_bytes (value.Text []) ≡ 4 ∷ 0 ∷ [] }
    ensures the_longest { fits_word (codes "12345678901234567890123456789012") ≡ true }
    ensures one_byte_more { fits_word (codes "123456789012345678901234567890123") ≡ false }
    ensures a_quotation_mark { fits_word (34 ∷ []) ≡ false }
    ensures an_end_of_line { fits_word (97 ∷ 10 ∷ []) ≡ false }
    ensures word { word_text (literal_word (literal.Text (codes "ab")) 1) ≡ 34 ∷ 97 ∷ 98 ∷ 34 ∷ [] }
{}

/// What texts are as values.
fn values()
    ensures begins_empty { beginning type.Text ≡ value.Text [] }
    ensures stays { fitted type.Text (value.Text (codes "ab")) ≡ value.Text (codes "ab") }
    ensures a_number_for_a_text { fitted type.Text (value.Int (pos 5)) ≡ value.Text [] }
    ensures a_text_for_a_number { fitted type.Int (value.Text (codes "ab")) ≡ value.Int (pos 0) }
    ensures printed { printed_as (value.Text (codes "ab")) ≡ pos 2 ∷ pos 97 ∷ pos 98 ∷ [] }
    ensures printed_empty { printed_as (value.Text []) ≡ pos 0 ∷ [] }
    ensures equal { same_value (value.Text (codes "ab")) (value.Text (codes "ab")) ≡ true }
    ensures of_one_length { same_value (value.Text (codes "ab")) (value.Text (codes "ac")) ≡ false }
    ensures a_text_beside_a_number { same_value (value.Text []) (value.Int (pos 0)) ≡ false }
{}

/// What breaks no rule.
fn accepted()
    ensures a_text_printed { told_of_texts (stmt.Print (expr.Variable (named (codes "t") 2)) ∷ []) ≡ None }
    ensures a_literal_printed { told_of_texts (stmt.Print (quoted (codes "ab") 2) ∷ []) ≡ None }
    ensures two_texts { told_of_texts (stmt.Print (expr.Binary Equal (expr.Variable (named (codes "t") 2)) (quoted (codes "ab") 2) 2) ∷ []) ≡ None }
    ensures assigned { told_of_texts (stmt.Assign (named (codes "t") 2) 2 (quoted (codes "ab") 2) ∷ []) ≡ None }
{}

/// The lines on which texts break rules.
fn refused()
    ensures a_sum { told_of_texts (stmt.Print (expr.Binary Add (expr.Variable (named (codes "t") 2)) (number 1 2) 3) ∷ []) ≡ broken 3 T3 }
    ensures less { told_of_texts (stmt.Print (expr.Binary Less (expr.Variable (named (codes "t") 2)) (quoted [] 2) 3) ∷ []) ≡ broken 3 T3 }
    ensures beside_a_number { told_of_texts (stmt.Print (expr.Binary Equal (expr.Variable (named (codes "t") 2)) (number 1 2) 3) ∷ []) ≡ broken 3 T3 }
    ensures beside_null { told_of_texts (stmt.Print (expr.Binary Unequal (quoted (codes "ab") 2) (expr.Null 2) 3) ∷ []) ≡ broken 3 T3 }
    ensures minus { told_of_texts (stmt.Print (expr.Negate (quoted (codes "ab") 2) 3) ∷ []) ≡ broken 3 T3 }
    ensures a_number_assigned { told_of_texts (stmt.Assign (named (codes "t") 2) 3 (number 1 3) ∷ []) ≡ broken 3 T3 }
    ensures null_assigned { told_of_texts (stmt.Assign (named (codes "t") 2) 3 (expr.Null 3) ∷ []) ≡ broken 3 T3 }
    ensures a_condition { told_of_texts (stmt.If (quoted (codes "ab") 4) [] ∷ []) ≡ broken 4 T3 }
    ensures a_receiver { told_of_texts (stmt.Evaluate (expr.Call (quoted (codes "ab") 4) (named (codes "get") 5) []) ∷ []) ≡ broken 5 T2 }
{}

/// Runs with texts, on a note whose text is `ab`.
fn runs()
    ensures printed { ran_noted (print (quoted (codes "ab") 1) ∷ []) ≡ gave_noted (pos 2 ∷ pos 97 ∷ pos 98 ∷ []) [] [] }
    ensures a_local { ran_noted (var_text (codes "t") (quoted (codes "c") 1) ∷ print (local (codes "t")) ∷ []) ≡ gave_noted (pos 1 ∷ pos 99 ∷ []) [] [] }
    ensures equal { ran_noted (print (expr.Binary Equal (quoted (codes "ab") 1) (quoted (codes "ab") 1) 1) ∷ []) ≡ gave_noted (pos 1 ∷ []) [] [] }
    ensures unequal { ran_noted (print (expr.Binary Unequal (quoted (codes "ab") 1) (quoted (codes "ab") 1) 1) ∷ []) ≡ gave_noted (pos 0 ∷ []) [] [] }
    ensures other_bytes { ran_noted (print (expr.Binary Equal (quoted (codes "ab") 1) (quoted (codes "a") 1) 1) ∷ []) ≡ gave_noted (pos 0 ∷ []) [] [] }
    ensures put { ran_noted (print (call (local (codes "n")) (codes "put") (quoted (codes "c") 1 ∷ [])) ∷ []) ≡ gave_noted (pos 1 ∷ pos 99 ∷ []) (n ∷ []) ((n, note_of (value.Text (codes "c") ∷ [])) ∷ []) }
{}

/// What upgrades may make of texts, and the lines on which they may not.
fn upgrades()
    ensures a_literal { told_of_note (becomes (a_text 11) (codes "t") 11 (quoted_tf (codes "c") 11) ∷ []) ≡ None }
    ensures a_text_that_is_kept { told_of_note (becomes (a_text 11) (codes "u") 11 (old 11 (codes "t" ∷ [])) ∷ []) ≡ None }
    ensures one_text_for_two_fields { told_of_note (becomes (a_text 11) (codes "u") 11 (old 11 (codes "t" ∷ [])) ∷ becomes (a_text 12) (codes "v") 12 (old 12 (codes "t" ∷ [])) ∷ []) ≡ None }
    ensures a_number_for_a_text { told_of_note (becomes (a_text 11) (codes "t") 11 (tf.Literal (literal.Int (pos 1)) 12) ∷ []) ≡ broken 12 O2 }
    ensures null_for_a_text { told_of_note (becomes (a_text 11) (codes "t") 11 (tf.Null 12) ∷ []) ≡ broken 12 O2 }
    ensures a_text_in_parentheses { told_of_note (becomes (a_text 11) (codes "t") 11 (tf.Parens (quoted_tf (codes "c") 13) 12) ∷ []) ≡ broken 12 O2 }
    ensures field_that_the_class_lacks { told_of_note (becomes (a_text 11) (codes "t") 11 (old 12 (codes "gone" ∷ [])) ∷ []) ≡ broken 12 O2 }
    ensures path_through_a_text { told_of_note (becomes (a_text 11) (codes "t") 11 (old 12 (codes "t" ∷ codes "t" ∷ [])) ∷ []) ≡ broken 12 O2 }
    ensures a_literal_for_an_int { told_of_note (becomes int (codes "k") 11 (quoted_tf (codes "c") 12) ∷ []) ≡ broken 12 O2 }
    ensures a_text_for_an_int { told_of_note (becomes int (codes "k") 11 (old 12 (codes "t" ∷ [])) ∷ []) ≡ broken 12 O2 }
    ensures a_text_in_a_sum { told_of_note (becomes int (codes "k") 11 (tf.Binary Add (tf.Literal (literal.Int (pos 1)) 12) (quoted_tf (codes "c") 13) 12) ∷ []) ≡ broken 12 O2 }
{}

/// What objects become by upgrades of texts.
fn upgraded()
    ensures a_literal { note_becomes (becomes (a_text 11) (codes "t") 11 (quoted_tf (codes "c") 11) ∷ []) ≡ note_of (value.Text (codes "c") ∷ []) }
    ensures a_text_that_is_kept { note_becomes (becomes int (codes "k") 11 (tf.Literal (literal.Int (pos 7)) 11) ∷ becomes (a_text 12) (codes "u") 12 (old 12 (codes "t" ∷ [])) ∷ []) ≡ note_of (value.Int (pos 7) ∷ value.Text (codes "ab") ∷ []) }
{}
