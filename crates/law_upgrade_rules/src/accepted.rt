//! What upgrades keep that a check accepts. Each law is a function with an empty body, whose clauses are proved once for
//! all callers.

ghost use Rattle.std.specs.Prelude.{◌≡◌, ℕ, List, [], Some, None, nat_lt, slice_get};
ghost use Rattle.thor_value.specs.declared.values.Obj.{Obj};
ghost use Rattle.class_defs.specs.Accepted.{AllAccepted, AllNameAClass};
ghost use Rattle.class_defs.specs.Applied.{applied, number_of};
ghost use Rattle.class_defs.specs.Epochs.{schema_of};
ghost use Rattle.class_defs.specs.KeptOwnership.{AllKeepClasses};
ghost use Rattle.class_defs.specs.Levels.{is_due, last_naming};
ghost use Rattle.class_defs.specs.SchemaRules.{item_rules, schema_rules};
ghost use Rattle.class_defs.specs.UpgradeOrder.{own_fault};
ghost use Rattle.class_defs.specs.declared.statements.Stmt.{Stmt};
ghost use Rattle.class_defs.specs.declared.store.Schema.{Schema};
ghost use Rattle.class_defs.specs.declared.store.Schemas.{Schemas};
ghost use Rattle.class_defs.specs.declared.upgrades.Upgrade.{Upgrade};

/// Behind an upgrade that a check accepts, the schema breaks no rule T, and no item of the script does under it.
pub fn accepted_upgrades_break_no_rule()
    ensures schema { (schema : Schema) → (repos : ℕ) → (u : Upgrade) → (items : List (List Stmt))
        → schema_rules schema repos ≡ [] → own_fault schema repos u items ≡ None → schema_rules (applied schema u) repos ≡ [] }
    ensures items { (schema : Schema) → (repos : ℕ) → (u : Upgrade) → (items : List (List Stmt)) → (i : ℕ) → (block : List Stmt)
        → own_fault schema repos u items ≡ None → slice_get items i ≡ Some block → item_rules (applied schema u) repos block ≡ [] }
{}

/// Where a check accepts the upgrades of a store, one after the other, they keep its classes and who owns what: what the
/// laws on lazy upgrades ask for.
pub fn accepted_upgrades_keep_ownership()
    ensures { (s : Schemas) → (repos : ℕ) → (items : List (List Stmt)) → (e : ℕ)
        → schema_rules s.first repos ≡ [] → AllAccepted s repos items e → AllKeepClasses s e }
{}

/// Where a check accepts the upgrades of a store, one after the other, the numbers in a schema are those of the last
/// upgrades that name its classes. So an object is due where its class's number is above its version.
pub fn numbers_tell_what_is_due()
    ensures numbers { (s : Schemas) → (repos : ℕ) → (items : List (List Stmt)) → (e : ℕ) → (c : ℕ)
        → ((d : ℕ) → number_of s.first.upgraded d ≡ 0) → AllAccepted s repos items e → AllNameAClass s e
        → number_of (schema_of s e).upgraded c ≡ last_naming s c e }
    ensures due { (s : Schemas) → (repos : ℕ) → (items : List (List Stmt)) → (e : ℕ) → (o : Obj)
        → ((d : ℕ) → number_of s.first.upgraded d ≡ 0) → AllAccepted s repos items e → AllNameAClass s e
        → is_due s e o ≡ nat_lt o.ver (number_of (schema_of s e).upgraded o.class) }
{}
