//! Worked rows of names at hand, and of names in two runs.

ghost use Rattle.std.specs.Prelude.{[], ◌∷◌, true, false};
ghost use Rattle.law_renaming.specs.Renaming.{AtHand, Paired, SameName};
ghost use Rattle.law_renaming.specs.RenamingRows.{oref_at, one_box};
ghost use Rattle.thor_value.specs.declared.values.Value.TheVariants as value;

/// The root of the store is 0.0.0.
fn names_at_hand()
    ensures two_new_names { AtHand (oref_at 0 1 0 ∷ oref_at 0 1 1 ∷ []) (one_box value.Null) }
    ensures beside_a_part { AtHand (oref_at 0 1 1 ∷ []) (one_box (value.Ref (oref_at 0 1 0))) }
    ensures no_names { AtHand [] (one_box value.Null) }
    ensures a_name_twice { ¬ AtHand (oref_at 0 1 0 ∷ oref_at 0 1 0 ∷ []) (one_box value.Null) }
    ensures the_root { ¬ AtHand (oref_at 0 0 0 ∷ []) (one_box value.Null) }
    ensures its_part { ¬ AtHand (oref_at 0 1 0 ∷ []) (one_box (value.Ref (oref_at 0 1 0))) }
    ensures in_two_repositories { AtHand (oref_at 0 1 0 ∷ oref_at 1 1 0 ∷ []) (one_box value.Null) }
    ensures a_stand_in_name { ¬ AtHand (oref_at 255 0 0 ∷ []) (one_box value.Null) }
{}

/// The one run created 0.1.0 and 0.1.1, the other 0.7.7 and 0.1.0.
fn names_in_two_runs()
    ensures second { Paired (oref_at 0 1 0 ∷ oref_at 0 1 1 ∷ []) (oref_at 0 7 7 ∷ oref_at 0 1 0 ∷ []) (oref_at 0 1 1) (oref_at 0 1 0) }
    ensures crossed { ¬ Paired (oref_at 0 1 0 ∷ oref_at 0 1 1 ∷ []) (oref_at 0 7 7 ∷ oref_at 0 1 0 ∷ []) (oref_at 0 1 0) (oref_at 0 1 0) }
    ensures old { SameName (λ x. false) [] [] (oref_at 0 0 0) (oref_at 0 0 0) }
    ensures not_created { ¬ SameName (λ x. true) [] [] (oref_at 0 0 0) (oref_at 0 0 0) }
{}
