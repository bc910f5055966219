//! That the changes of a stored map are a legal history. Each law is a function with an empty body, whose clauses are
//! proved once for all callers.

ghost use Rattle.std.specs.Prelude.{◌≡◌, ◌≤◌, List, length};
ghost use Rattle.thor_value.specs.FiniteMap.{IsSorted};
ghost use Rattle.class_defs.specs.Eager.{eager};
ghost use Rattle.class_defs.specs.KeptOwnership.{AllKeepClasses};
ghost use Rattle.class_defs.specs.Stored.{Stored};
ghost use Rattle.class_defs.specs.UpgradeLinesAside.{upgrade_on_line_1};
ghost use Rattle.class_defs.specs.Upgrades.{up};
ghost use Rattle.class_defs.specs.declared.classes.Class.{Class};
ghost use Rattle.class_defs.specs.declared.store.Plain.{Plain};
ghost use Rattle.class_defs.specs.declared.store.Schemas.{Schemas};
ghost use Rattle.class_defs.specs.declared.upgrades.Upgrade.{Upgrade};
ghost use Rattle.serial_model.specs.History.{IsLegal, Rise, after};
ghost use Rattle.law_lazy_history.specs.Changes.{Change, changed_by_all, entries_of};
ghost use Rattle.law_lazy_history.specs.Standing.{AllRun, AllStand, MapFits};

/// Changes of a stored map that fits, each of which stands on the map behind those before it, are a legal history from
/// the store that the map stands for: transforms are unseen, and an upgrade has its place among the others. What the map
/// behind them stands for is the store behind that history, and it fits.
pub fn changes_are_legal()
    ensures legal { (s : Schemas) → (N : Stored) → (cs : List Change)
        → AllKeepClasses s (length s.upgraded) → N.epoch ≤ length s.upgraded → IsSorted N.objects → MapFits s N
        → AllStand s N cs → Rise (entries_of cs) → IsLegal s (entries_of cs) (eager s N) }
    ensures behind { (s : Schemas) → (N : Stored) → (cs : List Change)
        → AllKeepClasses s (length s.upgraded) → N.epoch ≤ length s.upgraded → IsSorted N.objects → MapFits s N
        → AllStand s N cs → after s (entries_of cs) (eager s N) ≡ eager s (changed_by_all N cs) }
    ensures fits { (s : Schemas) → (N : Stored) → (cs : List Change)
        → AllKeepClasses s (length s.upgraded) → N.epoch ≤ length s.upgraded → IsSorted N.objects → MapFits s N
        → AllStand s N cs → MapFits s (changed_by_all N cs) }
{}

/// Where no upgrade was ever installed and none is, transactions alone are a legal history, whoever owns what.
pub fn changes_without_upgrades_are_legal()
    ensures legal { (s : Schemas) → (N : Stored) → (cs : List Change)
        → N.epoch ≡ 0 → IsSorted N.objects → AllRun s N cs → Rise (entries_of cs) → IsLegal s (entries_of cs) (eager s N) }
    ensures behind { (s : Schemas) → (N : Stored) → (cs : List Change)
        → N.epoch ≡ 0 → IsSorted N.objects → AllRun s N cs → after s (entries_of cs) (eager s N) ≡ eager s (changed_by_all N cs) }
{}

/// Lines don't count for what an upgrade does.
pub fn upgrades_are_the_same_lines_aside()
    ensures { (old : List Class) → (new : List Class) → (u : Upgrade) → (v : Upgrade) → (store : Plain)
        → upgrade_on_line_1 u ≡ upgrade_on_line_1 v → up old new u store ≡ up old new v store }
{}
