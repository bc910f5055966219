//! What a caller may rely on beside the clauses of the check. Each law is a function with an empty body, whose clauses are
//! proved once for all callers.

ghost use Rattle.std.specs.Prelude.{◌≡◌, ◌≤◌, ◌+◌, length};
ghost use Rattle.class_defs.specs.Applied.{applied, next_number};
ghost use Rattle.class_defs.specs.declared.store.Schema.{Schema};
ghost use Rattle.class_defs.specs.declared.upgrades.Upgrade.{Upgrade};

/// Behind an upgrade there are as many classes, and the number of the next upgrade has risen by one at most. So where
/// a first schema meets the conditions of the check, those behind its upgrades meet them as long as there aren't too
/// many upgrades.
pub fn one_upgrade_follows_another()
    ensures classes { (schema : Schema) → (u : Upgrade) → length (applied schema u).classes ≡ length schema.classes }
    ensures numbers { (schema : Schema) → (u : Upgrade) → next_number (applied schema u).upgraded ≤ next_number schema.upgraded + 1 }
{}
