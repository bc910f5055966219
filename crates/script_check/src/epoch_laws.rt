ghost use Rattle.std.specs.Prelude.{◌≡◌, ℕ, List, None, length};
ghost use Rattle.class_defs.specs.Accepted.{AllAccepted, AllNameAClass};
ghost use Rattle.class_defs.specs.declared.statements.Stmt.{Stmt};
ghost use Rattle.class_defs.specs.declared.store.Schema.{Schema};
ghost use Rattle.class_defs.specs.declared.upgrades.Upgrade.{Upgrade};
ghost use Rattle.script_parse.specs.Script.{IsWritten};
ghost use Rattle.script_check.specs.Judging.{KeepsRules};
ghost use Rattle.script_check.specs.Upgrading.{blocks_of, schemas_behind, upgrades_fault, upgrades_of};
ghost use Rattle.script_parse.specs.declared.script.Script.{Script};

/// Where no fault is told of upgrades, and so in an accepted script, they are accepted one after the other as those of
/// a store which begins with this schema and takes them in this order: so they keep its classes and who owns what, and
/// lazy upgrades are unseen there.
pub fn upgrades_are_accepted_in_order()
    ensures upgrades { (schema : Schema) → (repos : ℕ) → (upgrades : List Upgrade) → (blocks : List (List Stmt))
        → upgrades_fault schema repos upgrades blocks ≡ None
        → AllAccepted (schemas_behind schema upgrades) repos blocks (length upgrades) }
    ensures scripts { (schema : Schema) → (repos : ℕ) → (script : Script)
        → KeepsRules schema repos script
        → AllAccepted (schemas_behind schema (upgrades_of script.clients)) repos (blocks_of script.clients) (length (upgrades_of script.clients)) }
{}

/// Each upgrade of a script names a class: the grammar has no other. So the numbers of upgrades that a schema has for its
/// classes tell which objects are due.
pub fn upgrades_of_scripts_name_classes()
    ensures { (schema : Schema) → (bytes : List ℕ) → (script : Script) → IsWritten bytes script
        → AllNameAClass (schemas_behind schema (upgrades_of script.clients)) (length (upgrades_of script.clients)) }
{}
