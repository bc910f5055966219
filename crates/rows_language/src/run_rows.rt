//! Worked rows of runs, on a small store (`specs/RunRows.antt`): a box a with 5, an empty cell c, and an owner o.

ghost use Rattle.std.specs.Prelude.{◌≡◌, ◌<◌, ◌+◌, ◌*◌, ◌++◌, ℕ, [], ◌∷◌, codes, negsuc, None, pos, Some};
ghost use Rattle.thor_value.specs.declared.values.Fault.TheVariants.{NullCall, Steps};
ghost use Rattle.class_defs.specs.Run.{run};
ghost use Rattle.rows_language.specs.RunRows.{a, box_of, c, call, count_to, ended_in, evaluate, gave, gave_on, in_repo, local, minus, new, new_at, number, o, owner_of, part_of, plus, print, ran, ran_with, schema, steps_of, store_with_part, var_int, var_null};

/// Calls on a box.
fn boxes()
    ensures get { ran (print (call (local (codes "a")) (codes "get") []) ∷ []) ≡ gave (pos 5 ∷ []) (a ∷ []) [] }
    ensures add { ran (print (call (local (codes "a")) (codes "add") (number 3 ∷ [])) ∷ []) ≡ gave (pos 8 ∷ []) (a ∷ []) ((a, box_of 8) ∷ []) }
    ensures written_as_it_was { ran (evaluate (call (local (codes "a")) (codes "add") (number 0 ∷ [])) ∷ []) ≡ gave [] (a ∷ []) ((a, box_of 5) ∷ []) }
    ensures named_alone { ran (evaluate (local (codes "a")) ∷ []) ≡ gave [] [] [] }
{}

/// Numbers wrap round.
fn numbers()
    ensures one_more_than_the_greatest { ran (print (plus (number 9223372036854775807) (number 1)) ∷ []) ≡ gave (negsuc 9223372036854775807 ∷ []) [] [] }
    ensures minus_the_least { ran (print (minus (plus (number 9223372036854775807) (number 1))) ∷ []) ≡ gave (negsuc 9223372036854775807 ∷ []) [] [] }
{}

/// Calls on null. The arguments come before, and a fault gives up what was written.
fn nulls()
    ensures empty_cell { ran (print (call (local (codes "c")) (codes "hop") (number 1 ∷ [])) ∷ []) ≡ ended_in NullCall (c ∷ []) }
    ensures arguments_come_first { ran (var_null (codes "Cell") (codes "d") ∷ evaluate (call (local (codes "d")) (codes "hop") (call (local (codes "a")) (codes "get") [] ∷ [])) ∷ []) ≡ ended_in NullCall (a ∷ []) }
    ensures writes_are_given_up { ran (var_null (codes "Cell") (codes "d") ∷ evaluate (call (local (codes "d")) (codes "hop") (call (local (codes "a")) (codes "add") (number 1 ∷ []) ∷ [])) ∷ []) ≡ ended_in NullCall (a ∷ []) }
{}

/// How many steps are taken.
fn steps()
    ensures get { steps_of (print (call (local (codes "a")) (codes "get") []) ∷ []) ≡ Some 5 }
    ensures a_local { steps_of (var_int (codes "i") (number 1) ∷ print (local (codes "i")) ∷ []) ≡ Some 4 }
    ensures minus_takes_one_more { steps_of (var_int (codes "i") (number 1) ∷ print (minus (local (codes "i"))) ∷ []) ≡ Some 5 }
    ensures one_test { steps_of (count_to 0 ++ print (local (codes "i")) ∷ []) ≡ Some 8 }
    ensures two_tests { steps_of (count_to 1 ++ print (local (codes "i")) ∷ []) ≡ Some 16 }
{}

/// `var int i = 0; while (i < n) { i = i + 1; } print i;` prints n. It has n + 1 tests, and takes as many steps as are
/// allowed where n is 12499; with `print -i;` it takes one more.
fn loops()
    ensures steps { (n : ℕ) → n < 12500 → steps_of (count_to n ++ print (local (codes "i")) ∷ []) ≡ Some (2 + 4 * (n + 1) + 4 * n + 2) }
    ensures counted { (n : ℕ) → n < 12500 → ran (count_to n ++ print (local (codes "i")) ∷ []) ≡ gave (pos n ∷ []) [] [] }
    ensures as_many_as_are_allowed { steps_of (count_to 12499 ++ print (local (codes "i")) ∷ []) ≡ Some 100000 }
    ensures one_too_many { ran (count_to 12499 ++ print (minus (local (codes "i"))) ∷ []) ≡ ended_in Steps [] }
{}

/// Parts are made by their owners and reached through them.
fn parts()
    ensures made { ran_with (in_repo 0 9 ∷ []) (print (call (local (codes "o")) (codes "make") []) ∷ []) ≡ gave (pos 0 ∷ []) (o ∷ []) ((o, owner_of (in_repo 0 9)) ∷ (in_repo 0 9, part_of 0) ∷ []) }
    ensures reached { run schema (print (call (local (codes "o")) (codes "ask") []) ∷ []) store_with_part [] ≡ gave_on store_with_part (pos 7 ∷ []) (o ∷ in_repo 0 3 ∷ []) [] }
    ensures written { run schema (print (call (local (codes "o")) (codes "tell") (number 8 ∷ [])) ∷ []) store_with_part [] ≡ gave_on store_with_part (pos 8 ∷ []) (o ∷ in_repo 0 3 ∷ []) ((in_repo 0 3, part_of 8) ∷ []) }
    ensures not_there_yet { ran (print (call (local (codes "o")) (codes "ask") []) ∷ []) ≡ ended_in NullCall (o ∷ []) }
{}

/// New objects take the given names in the order in which they are made, each one of its repository. A run is
/// undefined where the names are others, or more, or too few.
fn names()
    ensures in_order { ran_with (in_repo 1 4 ∷ in_repo 0 7 ∷ in_repo 1 5 ∷ []) (evaluate (new_at (codes "Box") 1) ∷ evaluate (new (codes "Box")) ∷ evaluate (new_at (codes "Box") 1) ∷ []) ≡ gave [] [] ((in_repo 0 7, box_of 0) ∷ (in_repo 1 4, box_of 0) ∷ (in_repo 1 5, box_of 0) ∷ []) }
    ensures another_order { ran_with (in_repo 0 7 ∷ in_repo 1 4 ∷ []) (evaluate (new_at (codes "Box") 1) ∷ evaluate (new (codes "Box")) ∷ []) ≡ None }
    ensures one_too_many { ran_with (in_repo 0 7 ∷ in_repo 0 8 ∷ []) (evaluate (new (codes "Box")) ∷ []) ≡ None }
    ensures one_too_few { ran_with (in_repo 0 7 ∷ []) (evaluate (new (codes "Box")) ∷ evaluate (new (codes "Box")) ∷ []) ≡ None }
    ensures none_behind_a_fault { ran_with (in_repo 0 7 ∷ []) (evaluate (new (codes "Box")) ∷ evaluate (call (local (codes "c")) (codes "hop") (number 1 ∷ [])) ∷ []) ≡ None }
    ensures given_up_by_a_fault { ran (evaluate (new (codes "Box")) ∷ evaluate (call (local (codes "c")) (codes "hop") (number 1 ∷ [])) ∷ []) ≡ ended_in NullCall (c ∷ []) }
{}
