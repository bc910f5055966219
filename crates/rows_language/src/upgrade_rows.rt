//! Worked rows of the rules on upgrades. The upgrade's first word stands on line 9, the name of its first class on line 10
//! (`specs/UpgradeRows.antt`).

ghost use Rattle.std.specs.Prelude.{◌≡◌, [], ◌∷◌, codes, None};
ghost use Rattle.class_defs.specs.Accepted.{AllAccepted};
ghost use Rattle.class_defs.specs.Applied.{applied};
ghost use Rattle.rows_language.specs.LazyExamples.{twice};
ghost use Rattle.class_defs.specs.RuleRows.{broken, int};
ghost use Rattle.rows_language.specs.UpgradeRows.{a_bag, a_box, a_part, a_seal, becomes, schema_after, found, number, old, says, upgrade_fault, told_of, told_of_box, gives, upgrade};
ghost use Rattle.class_defs.specs.declared.expressions.Operator.TheVariants.{Add, Multiply, Subtract};
ghost use Rattle.class_defs.specs.declared.rules.Rule.TheVariants.{O1, O2, O3, O4, O5, O6, O7, T1, T2};
ghost use Rattle.class_defs.specs.declared.upgrades.Tf.TheVariants as tf;

/// Classes that aren't there, or are named twice.
fn classes_named()
    ensures class_that_is_not_there { upgrade_fault (says (codes "Gone") 10 (becomes int (codes "n") 10 (number 1 10) ∷ []) [] ∷ []) ≡ broken 10 O1 }
    ensures class_that_is_named_twice { upgrade_fault (says (codes "Part") 10 [] [] ∷ says (codes "Seal") 11 [] [] ∷ says (codes "Part") 12 [] [] ∷ []) ≡ broken 12 O1 }
{}

/// Expressions of new ints.
fn new_ints()
    ensures null_for_an_int { told_of (becomes int (codes "k") 12 (tf.Null 13) ∷ []) ≡ broken 13 O2 }
    ensures field_that_the_class_lacks { told_of (becomes int (codes "k") 12 (old 13 (codes "gone" ∷ [])) ∷ []) ≡ broken 13 O2 }
    ensures field_that_a_part_lacks { told_of (becomes int (codes "k") 12 (tf.Binary Add (old 13 (codes "n" ∷ [])) (old 15 (codes "p" ∷ codes "gone" ∷ [])) 14) ∷ []) ≡ broken 13 O2 }
    ensures path_through_an_int { told_of (becomes int (codes "k") 12 (old 13 (codes "n" ∷ codes "m" ∷ [])) ∷ []) ≡ broken 13 O2 }
    ensures path_that_ends_in_a_reference { told_of (becomes int (codes "k") 12 (old 13 (codes "next" ∷ [])) ∷ []) ≡ broken 13 O2 }
    ensures path_that_ends_in_a_part { told_of (becomes int (codes "k") 12 (tf.Negate (old 14 (codes "p" ∷ codes "s" ∷ [])) 13) ∷ []) ≡ broken 13 O2 }
    ensures path_of_nine_names { told_of (becomes int (codes "k") 12 (old 13 (codes "p" ∷ codes "more" ∷ codes "more" ∷ codes "more" ∷ codes "more" ∷ codes "more" ∷ codes "more" ∷ codes "more" ∷ codes "m" ∷ [])) ∷ []) ≡ broken 13 O2 }
    ensures path_of_eight_names { told_of (becomes int (codes "k") 12 (old 13 (codes "p" ∷ codes "more" ∷ codes "more" ∷ codes "more" ∷ codes "more" ∷ codes "more" ∷ codes "more" ∷ codes "m" ∷ [])) ∷ []) ≡ None }
    ensures sum_of_parts { told_of (becomes int (codes "k") 12 (tf.Binary Subtract (old 13 (codes "p" ∷ codes "m" ∷ [])) (tf.Parens (tf.Binary Multiply (number 3 13) (old 13 (codes "q" ∷ codes "s" ∷ codes "v" ∷ [])) 13) 13) 13) ∷ []) ≡ None }
{}

/// Expressions of new references to free objects.
fn new_references()
    ensures number_for_a_reference { told_of (becomes a_box (codes "k") 12 (number 1 13) ∷ []) ≡ broken 13 O3 }
    ensures field_that_the_class_lacks { told_of (becomes a_box (codes "k") 12 (old 13 (codes "gone" ∷ [])) ∷ []) ≡ broken 13 O3 }
    ensures int_for_a_reference { told_of (becomes a_box (codes "k") 12 (old 13 (codes "n" ∷ [])) ∷ []) ≡ broken 13 O3 }
    ensures part_for_a_free_object { told_of (becomes a_box (codes "k") 12 (old 13 (codes "p" ∷ [])) ∷ []) ≡ broken 13 O3 }
    ensures reference_of_a_part { told_of (becomes a_box (codes "k") 12 (old 13 (codes "p" ∷ codes "far" ∷ [])) ∷ []) ≡ broken 13 O3 }
    ensures reference_in_parentheses { told_of (becomes a_box (codes "k") 12 (tf.Parens (old 14 (codes "next" ∷ [])) 13) ∷ []) ≡ broken 13 O3 }
    ensures reference_that_is_kept { told_of (becomes a_box (codes "k") 12 (old 13 (codes "next" ∷ [])) ∷ becomes a_box (codes "l") 12 (old 13 (codes "next" ∷ [])) ∷ []) ≡ None }
    ensures null_for_a_reference { told_of (becomes a_box (codes "k") 12 (tf.Null 13) ∷ []) ≡ None }
{}

/// Paths through objects that aren't owned.
fn paths()
    ensures path_over_a_free_object { told_of (becomes int (codes "k") 12 (old 13 (codes "next" ∷ codes "n" ∷ [])) ∷ []) ≡ broken 13 O4 }
    ensures path_over_a_part_and_a_free_object { told_of (becomes int (codes "k") 12 (old 13 (codes "p" ∷ codes "far" ∷ codes "n" ∷ [])) ∷ []) ≡ broken 13 O4 }
    ensures second_path { told_of (becomes int (codes "k") 12 (tf.Binary Add (old 13 (codes "n" ∷ [])) (old 14 (codes "next" ∷ codes "n" ∷ [])) 14) ∷ []) ≡ broken 13 O4 }
    ensures part_over_a_free_object { told_of (becomes a_part (codes "k") 12 (old 13 (codes "next" ∷ codes "p" ∷ [])) ∷ []) ≡ broken 13 O4 }
    ensures field_of_a_class_that_is_not_declared { told_of (becomes (a_bag 12) (codes "k") 12 (old 13 (codes "next" ∷ codes "n" ∷ [])) ∷ []) ≡ broken 13 O4 }
    ensures the_lesser_rule_on_a_line { told_of (becomes int (codes "k") 12 (tf.Binary Add (old 13 (codes "next" ∷ codes "n" ∷ [])) (old 13 (codes "gone" ∷ [])) 13) ∷ []) ≡ broken 13 O2 }
{}

/// Parts that are handed over.
fn handed_over()
    ensures part_handed_over_twice { told_of (becomes a_part (codes "p") 12 (old 12 (codes "p" ∷ [])) ∷ becomes a_part (codes "q") 13 (old 14 (codes "p" ∷ [])) ∷ []) ≡ broken 14 O5 }
    ensures behind_another_field { told_of (becomes a_part (codes "p") 12 (old 12 (codes "q" ∷ [])) ∷ becomes int (codes "k") 13 (old 13 (codes "q" ∷ codes "m" ∷ [])) ∷ becomes a_part (codes "q") 14 (old 15 (codes "q" ∷ [])) ∷ []) ≡ broken 15 O5 }
    ensures handed_over_crosswise { told_of (becomes a_part (codes "p") 12 (old 12 (codes "q" ∷ [])) ∷ becomes a_part (codes "q") 13 (old 13 (codes "p" ∷ [])) ∷ []) ≡ None }
{}

/// Expressions of new owned fields.
fn new_owned_fields()
    ensures number_for_a_part { told_of (becomes a_part (codes "k") 12 (number 1 13) ∷ []) ≡ broken 13 O6 }
    ensures part_of_another_class { told_of (becomes a_seal (codes "k") 12 (old 13 (codes "p" ∷ [])) ∷ []) ≡ broken 13 O6 }
    ensures part_of_a_part { told_of (becomes a_seal (codes "k") 12 (old 13 (codes "p" ∷ codes "s" ∷ [])) ∷ []) ≡ broken 13 O6 }
    ensures part_in_parentheses { told_of (becomes a_part (codes "k") 12 (tf.Parens (old 14 (codes "p" ∷ [])) 13) ∷ []) ≡ broken 13 O6 }
    ensures one_part_for_fields_of_two_classes { told_of (becomes a_part (codes "p") 12 (old 12 (codes "p" ∷ [])) ∷ becomes a_seal (codes "s") 13 (old 14 (codes "p" ∷ [])) ∷ []) ≡ broken 14 O6 }
    ensures what_does_not_fit_is_not_handed_over { told_of (becomes a_seal (codes "s") 12 (old 12 (codes "p" ∷ [])) ∷ becomes a_part (codes "p") 12 (old 12 (codes "p" ∷ [])) ∷ []) ≡ broken 12 O6 }
    ensures null_for_a_part { told_of (becomes a_part (codes "p") 12 (tf.Null 12) ∷ []) ≡ None }
{}

/// What breaks a rule where the upgrade is applied.
fn outside()
    ensures item_calls_a_method_that_is_gone { upgrade_fault (says (codes "Box") 10 (becomes int (codes "n") 11 (old 11 (codes "n" ∷ [])) ∷ []) [] ∷ []) ≡ broken 9 O7 }
    ensures other_class_calls_a_method_that_is_gone { upgrade_fault (says (codes "Seal") 10 (becomes int (codes "v") 11 (old 11 (codes "v" ∷ [])) ∷ []) [] ∷ []) ≡ broken 9 O7 }
    ensures method_that_is_kept { upgrade_fault (says (codes "Seal") 10 (becomes int (codes "w") 11 (old 11 (codes "v" ∷ [])) ∷ []) (gives (codes "get") (codes "w") ∷ []) ∷ []) ≡ None }
{}

/// The order in which the rules are tried.
fn order()
    ensures field_of_a_name_twice { told_of_box (becomes int (codes "n") 11 (number 1 11) ∷ becomes int (codes "n") 12 (number 2 13) ∷ []) ≡ broken 12 T1 }
    ensures type_that_is_not_declared { told_of (becomes (a_bag 12) (codes "k") 13 (old 14 (codes "p" ∷ [])) ∷ []) ≡ broken 12 T2 }
    ensures inside_before_outside { upgrade_fault (says (codes "Box") 10 [] (gives (codes "look") (codes "gone") ∷ []) ∷ []) ≡ broken 1 T2 }
    ensures later_line_of_an_own_rule { told_of (becomes (a_bag 12) (codes "k") 12 (tf.Null 12) ∷ becomes int (codes "l") 13 (tf.Null 13) ∷ []) ≡ broken 13 O2 }
    ensures least_line { told_of (becomes a_part (codes "k") 12 (number 1 13) ∷ becomes a_box (codes "l") 14 (number 1 14) ∷ []) ≡ broken 13 O6 }
{}

/// The numbers of upgrades behind the third one, which names Box and Part; and behind a first one that names Seal.
fn numbers()
    ensures named { (schema_after (says (codes "Box") 10 [] [] ∷ says (codes "Part") 10 [] [] ∷ [])).upgraded ≡ 3 ∷ 3 ∷ 2 ∷ 0 ∷ [] }
    ensures first { (applied (record found { upgraded = [] }) (upgrade (says (codes "Seal") 10 [] [] ∷ []))).upgraded ≡ 0 ∷ 0 ∷ 1 ∷ 0 ∷ [] }
{}

/// A store with two upgrades that a check accepts one after the other: that of the worked rows on lazy upgrades.
fn accepted()
    ensures upgrades { AllAccepted twice 1 [] 2 }
{}
