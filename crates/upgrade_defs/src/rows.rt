//! Worked rows of the grammar of upgrades, computed on its definitions.

ghost use Rattle.std.specs.Prelude.{◌≡◌, [], ◌∷◌, codes, pos};
ghost use Rattle.class_defs.specs.Words.{Fixed, FixedAt, Named, Numbered};
ghost use Rattle.class_defs.specs.declared.expressions.Operator.TheVariants.{Add, Less, Multiply};
ghost use Rattle.class_defs.specs.declared.literals.Literal.TheVariants as literal;
ghost use Rattle.class_defs.specs.declared.upgrades.Tf.TheVariants as tf;
ghost use Rattle.upgrade_defs.specs.Grammar.{tf_shape};
ghost use Rattle.upgrade_defs.specs.Printed.{printed_upgrade};
ghost use Rattle.upgrade_defs.specs.Rows.{bad, box_upgrade, copied, good, named, old, to_the_left, to_the_right};
ghost use Rattle.upgrade_defs.specs.Spelling.{tf_words, upgrade_words};

/// The words of upgrades.
fn words()
    ensures path { tf_words (tf.Path (named (codes "part") ∷ named (codes "n") ∷ []) 2)
        ≡ FixedAt (codes "old") 2 ∷ Fixed (codes ".") ∷ Named (codes "part") 1 ∷ Fixed (codes ".") ∷ Named (codes "n") 1 ∷ [] }
    ensures two_trees_with_one_spelling { tf_words to_the_left ≡ tf_words to_the_right }
    ensures an_upgrade { upgrade_words box_upgrade
        ≡ FixedAt (codes "upgrade") 1 ∷ Fixed (codes "{") ∷ Fixed (codes "class") ∷ Named (codes "Box") 1 ∷ Fixed (codes "{")
        ∷ FixedAt (codes "int") 1 ∷ Named (codes "n") 1 ∷ Fixed (codes "=")
        ∷ FixedAt (codes "old") 1 ∷ Fixed (codes ".") ∷ Named (codes "n") 1 ∷ FixedAt (codes "+") 1 ∷ Numbered (pos 1) 1
        ∷ Fixed (codes ";") ∷ Fixed (codes "}") ∷ Fixed (codes "}") ∷ [] }
    ensures the_text_of_an_upgrade { printed_upgrade copied ≡ codes "upgrade { class Box { int n = old . n ; } }" }
{}

/// Expressions that the grammar has.
fn expressions()
    ensures null { tf_shape (tf.Null 1) ≡ good 0 1 0 }
    ensures a_number { tf_shape (tf.Literal (literal.Int (pos 5)) 1) ≡ good 5 1 0 }
    ensures a_path { tf_shape (tf.Path (named (codes "part") ∷ named (codes "n") ∷ []) 1) ≡ good 5 1 0 }
    ensures a_sum_to_the_left { tf_shape to_the_left ≡ good 1 3 0 }
    ensures minus_twice { tf_shape (tf.Negate (tf.Negate (old (codes "a")) 1) 1) ≡ good 3 3 0 }
    ensures parentheses { tf_shape (tf.Binary Multiply (tf.Parens (tf.Binary Add (old (codes "a")) (tf.Literal (literal.Int (pos 1)) 1) 1) 1) (old (codes "b")) 1)
        ≡ good 2 4 1 }
{}

/// Expressions that it hasn't.
fn refused()
    ensures a_sum_to_the_right { tf_shape to_the_right ≡ bad 1 3 0 }
    ensures old_alone { tf_shape (tf.Path [] 1) ≡ bad 5 1 0 }
    ensures null_in_parentheses { tf_shape (tf.Parens (tf.Null 1) 1) ≡ bad 5 2 1 }
    ensures minus_null { tf_shape (tf.Negate (tf.Null 1) 1) ≡ bad 3 2 0 }
    ensures null_in_a_sum { tf_shape (tf.Binary Add (tf.Null 1) (old (codes "a")) 1) ≡ bad 1 2 0 }
    ensures a_comparison { tf_shape (tf.Binary Less (old (codes "a")) (old (codes "b")) 1) ≡ bad 0 2 0 }
    ensures a_sum_as_a_factor { tf_shape (tf.Binary Multiply (old (codes "a")) (tf.Binary Add (old (codes "a")) (old (codes "b")) 1) 1) ≡ bad 2 3 0 }
{}
