//! Worked rows of histories.

ghost use Rattle.std.specs.Prelude.{◌≡◌, [], ◌∷◌, pos};
ghost use Rattle.thor_value.specs.declared.values.Answer.TheVariants as answer;
ghost use Rattle.thor_value.specs.declared.values.Value.TheVariants.{Int, Ref, Null};
ghost use Rattle.serial_model.specs.History.{IsLegal, after};
ghost use Rattle.serial_model.specs.ReplayRows.{schemas, shift, slot, two, store, at_time, entry, shifted, nothing, IsAllowed};
ghost use Rattle.serial_model.specs.declared.entries.What.TheVariants as what;

/// The store behind an upgrade: all expressions read the objects as they were, and a path that meets null gives 0.
fn store_behind_an_upgrade()
    ensures { after schemas (shifted 7 1 ∷ []) store ≡ two (Int (pos 5) ∷ Ref (slot 1) ∷ Int (pos 6) ∷ []) (Int (pos 0) ∷ Null ∷ Int (pos 10) ∷ []) 1 }
{}

/// Upgrades in a history.
fn upgrades()
    ensures first { IsAllowed (shifted 7 1 ∷ []) }
    ensures number_of_a_later_one { ¬ IsAllowed (shifted 7 2 ∷ []) }
    ensures number_of_a_transaction { ¬ IsAllowed (shifted 7 0 ∷ []) }
    ensures installed_twice { ¬ IsAllowed (shifted 7 1 ∷ shifted 8 1 ∷ []) }
    ensures that_nobody_declared { ¬ IsAllowed (shifted 7 1 ∷ shifted 8 2 ∷ []) }
    ensures on_another_line { IsAllowed (entry 7 (what.Upgrade (shift 10)) 1 ∷ []) }
    ensures another_one { ¬ IsAllowed (entry 7 (what.Upgrade (record (shift 9) { classes = [] })) 1 ∷ []) }
    ensures that_prints { ¬ IsAllowed (record (shifted 7 1) { answer = answer.Ints (pos 0 ∷ []) } ∷ []) }
    ensures that_creates { ¬ IsAllowed (record (shifted 7 1) { fresh = slot 2 ∷ [] } ∷ []) }
{}

/// Transactions in a history.
fn transactions()
    ensures none { IsAllowed [] }
    ensures two_that_rise { IsAllowed (nothing 7 ∷ nothing 8 ∷ []) }
    ensures before_and_behind_an_upgrade { IsAllowed (nothing 7 ∷ shifted 8 1 ∷ nothing 9 ∷ []) }
    ensures two_at_one_time { ¬ IsAllowed (nothing 7 ∷ nothing 7 ∷ []) }
    ensures two_that_fall { ¬ IsAllowed (nothing 8 ∷ nothing 7 ∷ []) }
    ensures with_a_number { ¬ IsAllowed (entry 7 (what.Tx []) 1 ∷ []) }
    ensures with_another_answer { ¬ IsAllowed (record (nothing 7) { answer = answer.Ints (pos 0 ∷ []) } ∷ []) }
    ensures with_a_name_that_it_does_not_take { ¬ IsAllowed (record (nothing 7) { fresh = slot 2 ∷ [] } ∷ []) }
    ensures past_the_last_epoch { ¬ IsLegal schemas (nothing 7 ∷ []) (record store { epoch = 2 }) }
    ensures with_a_name_that_is_there { ¬ IsAllowed (record (nothing 7) { fresh = slot 0 ∷ [] } ∷ []) }
{}
