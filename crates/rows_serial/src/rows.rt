//! The premises of the serial law, of one run (`specs/Rows.antt`), and what the law says of it.

ghost use Rattle.law_atomic_commit.specs.Several.{Alike, AreSound, IsAtomic};
ghost use Rattle.class_defs.specs.Eager.{eager};
ghost use Rattle.law_eval.specs.Owners.{AreOwnersAbove, IsCheckedOver};
ghost use Rattle.method_eval.specs.Answers.{evaluation};
ghost use Rattle.method_eval.specs.declared.view.Ran.TheVariants.{Need};
ghost use Rattle.law_serializability.specs.Resting.{AreChecked, AreHere, EachRests, IsOpening, OpeningFits};
ghost use Rattle.law_serializability.specs.WholeHistory.{stored_map, whole_history};
ghost use Rattle.serial_model.specs.History.{IsLegal};
ghost use Rattle.rows_serial.specs.Rows.{a, a_box, a_part, asking, at, first, items, o, opening, owner_alone, p, roots, run, schemas};
ghost use Rattle.std.specs.Prelude.{Some, [], map, ◌≡◌, ◌∷◌};
ghost use Rattle.thor_value.specs.FiniteMap.{get, keys};
ghost use Rattle.law_global_order.specs.Serial.{after_commits};
ghost use Rattle.law_global_order.specs.Whole.{commits};

/// Each premise of `histories_are_serial` is met: by a transaction at two repositories, an upgrade of a part, a transform
/// of this part before its owner is used again, and a transaction that uses it.
pub fn a_run_meets_the_premises()
    ensures sound { AreSound run }
    ensures atomic { IsAtomic run }
    ensures alike { Alike run }
    ensures rests { EachRests schemas items roots run }
    ensures opening { IsOpening run opening }
    ensures here { AreHere run opening }
    ensures fits { OpeningFits schemas roots opening }
    ensures checked { AreChecked schemas items roots run.repos }
{}

/// So its whole history is legal. The transform isn't in it; and behind it the part is as the upgrade made it, and the
/// box has what was added.
pub fn a_run_is_serial()
    ensures legal { IsLegal schemas (whole_history items run) (eager schemas (stored_map roots opening)) }
    ensures commits { keys (commits run) ≡ at 1 ∷ at 2 ∷ at 3 ∷ at 4 ∷ [] }
    ensures entries { map (λ d. d.ts) (whole_history items run) ≡ at 1 ∷ at 2 ∷ at 4 ∷ [] }
    ensures part { get (after_commits opening (commits run).pairs).objects p ≡ Some (a_part 1 70) }
    ensures added { get (after_commits opening (commits run).pairs).objects a ≡ Some (a_box 12) }
{}

/// Where the owner is at hand and its part isn't, the item that asks for what the part has meets what
/// `owners_told_are_those_above` asks for. It needs the part, and tells its owner, who is the one above it.
pub fn a_missing_part_is_told_with_its_owner()
    ensures meets { IsCheckedOver schemas (stored_map roots opening) first 2 asking owner_alone }
    ensures needs { evaluation asking first owner_alone ≡ Need p (o ∷ []) }
    ensures above { AreOwnersAbove schemas opening.objects p (o ∷ []) }
{}
