//! Worked rows of runs that stop because something isn't at hand (`specs/NeedRows.antt`): a owns p, which owns q, which
//! owns r.

ghost use Rattle.std.specs.Prelude.{◌≡◌, [], ◌∷◌, Some, None, codes};
ghost use Rattle.class_defs.specs.declared.machine.Stop.TheVariants.{Need, NeedName};
ghost use Rattle.rows_language.specs.NeedRows.{a, asked, made_with, p, q, r, the_a, the_p, the_q};

/// The object that is read next isn't at hand. Its owners follow, nearest first.
fn needs()
    ensures root { asked [] (codes "ask") ≡ Some (Need a []) }
    ensures part { asked (the_a ∷ []) (codes "ask") ≡ Some (Need p (a ∷ [])) }
    ensures part_of_part { asked (the_a ∷ the_p ∷ []) (codes "ask") ≡ Some (Need q (p ∷ a ∷ [])) }
    ensures deep { asked (the_a ∷ the_p ∷ the_q ∷ []) (codes "deep") ≡ Some (Need r (q ∷ p ∷ a ∷ [])) }
{}

/// A part that calls itself is not its own owner.
fn needs_behind_calls_of_itself()
    ensures once { asked (the_a ∷ the_p ∷ []) (codes "round") ≡ Some (Need q (p ∷ a ∷ [])) }
    ensures twice { asked (the_a ∷ the_p ∷ []) (codes "twice") ≡ Some (Need q (p ∷ a ∷ [])) }
{}

/// A new object takes the next name that waits in its repository, and needs one where none does.
fn needed_names()
    ensures none { made_with [] ≡ Some (NeedName 0) }
    ensures of_another_repository { made_with (record p { repo = 1 } ∷ []) ≡ Some (NeedName 0) }
    ensures given { made_with (record p { repo = 1 } ∷ r ∷ []) ≡ None }
{}
