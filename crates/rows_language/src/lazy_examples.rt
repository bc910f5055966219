//! The definitions of lazy upgrades, computed on a small store (`specs/LazyExamples.antt`).

ghost use Rattle.std.specs.Prelude.{◌≡◌, [], ◌∷◌, Some, false, pos, true};
ghost use Rattle.thor_value.specs.declared.values.Value.TheVariants.{Int, Null, Ref};
ghost use Rattle.class_defs.specs.KeptOwnership.{AllKeepClasses};
ghost use Rattle.rows_language.specs.LazyExamples.{a, box, bring, count, later_count, lone, m, mixed, part, seen, twice, written, z};
ghost use Rattle.class_defs.specs.Levels.{is_due, level};
ghost use Rattle.class_defs.specs.WellOwned.{AreOfTheirClasses, IsWellOwned};

/// What objects are in the store that the stored map stands for. An owner's expressions read its parts as they
/// were, though the same upgrade changes them.
fn eager_examples()
    ensures reads_the_old_part { seen mixed a ≡ Some (Int (pos 7) ∷ Ref m ∷ []) }
    ensures part { seen mixed z ≡ Some (Int (pos 70) ∷ []) }
    ensures part_between { seen mixed m ≡ Some (Ref z ∷ []) }
    ensures path_through_null { seen mixed lone ≡ Some (Int (pos 5) ∷ Null ∷ []) }
    ensures two_upgrades_at_once { seen mixed count ≡ Some (Int (pos 50) ∷ []) }
    ensures one_of_two_upgrades { seen mixed later_count ≡ Some (Int (pos 60) ∷ []) }
    ensures not_named { seen mixed box ≡ Some (Int (pos 3) ∷ []) }
{}

/// Where the owner is brought first, nothing is seen of it. Where its part were brought first, the owner would read
/// the part as it has become.
fn order_examples()
    ensures owner_first { seen (bring a (written 0 0 (Int (pos 0) ∷ Ref m ∷ [])) mixed) a ≡ Some (Int (pos 7) ∷ Ref m ∷ []) }
    ensures then_the_part { seen (bring z part (bring a (written 0 0 (Int (pos 0) ∷ Ref m ∷ [])) mixed)) a ≡ Some (Int (pos 7) ∷ Ref m ∷ []) }
    ensures part_first { seen (bring z part mixed) a ≡ Some (Int (pos 70) ∷ Ref m ∷ []) }
{}

/// Levels of objects.
fn level_examples()
    ensures changed_by_the_first { level twice 2 part ≡ 0 }
    ensures written_behind_the_first { level twice 2 (written 3 1 (Int (pos 6) ∷ [])) ≡ 1 }
    ensures not_named { level twice 2 (written 4 0 (Int (pos 3) ∷ [])) ≡ 2 }
    ensures due { is_due twice 2 part ≡ true }
    ensures not_due { is_due twice 2 (written 4 0 (Int (pos 3) ∷ [])) ≡ false }
    ensures not_due_before { is_due twice 0 part ≡ false }
{}

/// What the laws on lazy upgrades ask for holds here. It doesn't, where the part is brought first.
fn premise_examples()
    ensures upgrades { AllKeepClasses twice 2 }
    ensures well_owned { IsWellOwned twice mixed }
    ensures kinds { AreOfTheirClasses twice mixed }
    ensures part_first { ¬ IsWellOwned twice (bring z part mixed) }
{}
