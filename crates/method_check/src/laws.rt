ghost use Rattle.std.specs.Prelude.{◌≡◌, List, [], Contains, None, Some, false};
ghost use Rattle.class_defs.specs.Rules.{least, told_before};
ghost use Rattle.class_defs.specs.declared.rules.RuleFault.{RuleFault};

/// Of several faults a check tells one of them, and one before which none is told: the one with the least line,
/// and of those on that line one with the least rule. Where it tells none there is none.
pub fn the_least_fault_is_told()
    ensures none { (faults : List RuleFault) → least faults ≡ None → faults ≡ [] }
    ensures one_of_them { (faults : List RuleFault) → (told : RuleFault) → least faults ≡ Some told → Contains faults told }
    ensures first { (faults : List RuleFault) → (told : RuleFault) → (other : RuleFault) → least faults ≡ Some told → Contains faults other → told_before other told ≡ false }
{}
