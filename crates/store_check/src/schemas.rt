//! The schemas of a stored store, from its texts.

ghost use Rattle.class_defs.specs.Applied.{applied};
ghost use Rattle.class_defs.specs.SchemaRules.{schema_rules};
ghost use Rattle.class_defs.specs.UpgradeOrder.{own_fault};
ghost use Rattle.method_parse.specs.Texts.{SpellsSetup};
ghost use Rattle.script_text.specs.Grammar.{AreTokensOf};
ghost use Rattle.store_check.specs.Spelled as spec;
ghost use Rattle.store_check.specs.Spelled.{AreClasses, BeginWith, FindsOnly, IsBehind, IsEpochOf, IsLawful, IsText, SpellEpochs, SpellSchemas, SpellsEpoch, SpellsFirst, are_named, declared_root, declared_roots};
ghost use Rattle.std.specs.Option.{option_map};
ghost use Rattle.std.specs.Prelude.{◌≡◌, ◌≤◌, [], false, true, IfOk, IfSome, None, length, slice_get, unwrap_or};
ghost use Rattle.thor_value.specs.Words.{fits_word, word_from};
ghost use Rattle.upgrade_defs.specs.Texts.{SpellsUpgrade};

use class_defs::{
    Blocks, Checked, Class, Classes, Declarations, Epochs, Name, Root, RootDeclaration,
    RootDeclarations, Roots, Schema, Schemas, Upgrade, UpgradedSchema, UpgradedSchemas,
};
use method_check::{CheckError, check};
use method_parse::parse_setup;
use ownership_check::{has_next_number, own_check};
use script_text::{SyntaxError, Tokens, scan};
use std::alloc::Global;
use thor_value::{NoMemory, Text, TryCopy, Word, both};
use upgrade_defs::parse_upgrade;

/// The most classes that a schema can have: a class has a number of 16 bits.
const CLASSES: usize = 65_536;

/// The texts from which the schemas of a repository are made.
#[derive(Clone, Copy)]
pub struct Texts<'a> {
    /// The classes of epoch 0.
    pub classes: &'a Text,
    pub roots: &'a Roots,
    /// The installed upgrades, in their order.
    pub upgrades: &'a [Text],
}

/// The schemas that texts spell over so many repositories; nothing where a text doesn't parse or breaks a
/// rule, or a root's name is none of the language's. Nothing else is asked of the roots: they are named as they are stored.
pub fn schemas_of(alloc: Global, texts: Texts, repos: u8) -> Result<Option<Schemas>, NoMemory>
    ensures { IfOk result (FindsOnly (SpellSchemas texts.entry.classes.now texts.entry.roots.now texts.entry.upgrades.now repos)) }
{
    if !are_named(texts.roots) {
        return Ok(None);
    }
    match first_schema(alloc, texts.classes, repos)? {
        Some(first) => begun(alloc, first, texts.roots, texts.upgrades),
        None => Ok(None),
    }
}

/// The schemas that begin with a schema without roots, which has these roots then.
fn begun(
    alloc: Global,
    first: Checked,
    roots: &Roots,
    upgrades: &[Text],
) -> Result<Option<Schemas>, NoMemory>
    ensures { IfOk result (FindsOnly (BeginWith roots.now upgrades.now first.repos first.schema)) }
{
    let declared = declared(alloc, &first.schema.classes, roots)?;
    let schema = with_roots(&first.schema, &declared)?;
    let (schema, epochs) = both(schema, epochs_behind(alloc, first, &declared, upgrades))?;
    match epochs {
        Some(upgraded) => Ok(Some(Schemas {
            first: schema,
            upgraded,
        })),
        None => {
            drop(schema);
            Ok(None)
        }
    }
}

/// The tokens of a text; nothing where a byte is none of the language's.
fn tokens_of(alloc: Global, text: &Text) -> Result<Option<Tokens>, NoMemory>
    ensures { IfOk result (FindsOnly (AreTokensOf text.now)) }
{
    match scan(alloc, text.as_slice()) {
        Ok(tokens) => Ok(Some(tokens)),
        Err(SyntaxError::Fault(_)) => Ok(None),
        Err(SyntaxError::NoMemory) => Err(NoMemory),
    }
}

/// What the section `setup` declares that tokens spell.
fn setup_in(alloc: Global, tokens: &Tokens) -> Result<Option<Declarations>, NoMemory>
    ensures { IfOk result (FindsOnly (SpellsSetup tokens.now)) }
{
    match parse_setup(alloc, tokens) {
        Ok(setup) => Ok(Some(setup)),
        Err(SyntaxError::Fault(_)) => Ok(None),
        Err(SyntaxError::NoMemory) => Err(NoMemory),
    }
}

/// The classes of a setup, where they are at most 2^16 and it has no root.
fn classes_alone(setup: Declarations) -> Option<Classes>
    ensures found { IfSome result (λ classes. setup ≡ (record { classes = classes; roots = [] })) }
    ensures few { IfSome result (λ classes. length classes ≤ 65536) }
    ensures none { result ≡ None → setup.roots ≡ [] → length setup.classes ≤ 65536 → ⊥ }
{
    let Declarations { classes, roots } = setup;
    if roots.is_empty() && classes.len() <= CLASSES {
        Some(classes)
    } else {
        None
    }
}

/// The classes that tokens spell, at most 2^16 of them and no root.
fn classes_in(alloc: Global, tokens: &Tokens) -> Result<Option<Classes>, NoMemory>
    ensures { IfOk result (FindsOnly (AreClasses tokens.now)) }
{
    match setup_in(alloc, tokens)? {
        Some(setup) => Ok(classes_alone(setup)),
        None => Ok(None),
    }
}

/// The classes that a text spells, at most 2^16 of them and no root.
fn classes_of(alloc: Global, text: &Text) -> Result<Option<Classes>, NoMemory>
    ensures { IfOk result (FindsOnly (IsText AreClasses text.now)) }
{
    match tokens_of(alloc, text)? {
        Some(tokens) => classes_in(alloc, &tokens),
        None => Ok(None),
    }
}

/// The schema of classes without roots, where it breaks no rule.
fn lawful(alloc: Global, classes: Classes, repos: u8) -> Result<Option<Checked>, NoMemory>
    requires { length classes ≤ 65536 }
    ensures schema { IfOk result (λ found. FindsOnly (IsLawful repos classes) (option_map (λ checked. checked.schema) found)) }
    ensures repos { IfOk result (λ found. IfSome found (λ checked. checked.repos ≡ repos)) }
{
    let bare = Schema {
        classes,
        upgraded: Epochs::new(alloc),
        roots: RootDeclarations::new(alloc),
    };
    match check(alloc, &bare, repos) {
        Ok(checked) => Ok(Some(checked)),
        Err(CheckError::Broken(_)) => Ok(None),
        Err(CheckError::NoMemory) => Err(NoMemory),
    }
}

/// The schema of epoch 0 without its roots, where its classes break no rule.
fn first_schema(alloc: Global, text: &Text, repos: u8) -> Result<Option<Checked>, NoMemory>
    ensures schema { IfOk result (λ found. FindsOnly (SpellsFirst text.now repos) (option_map (λ checked. checked.schema) found)) }
    ensures repos { IfOk result (λ found. IfSome found (λ checked. checked.repos ≡ repos)) }
{
    match classes_of(alloc, text)? {
        Some(classes) => lawful(alloc, classes, repos),
        None => Ok(None),
    }
}

/// A schema with these roots.
fn with_roots(schema: &Schema, roots: &RootDeclarations) -> Result<Schema, NoMemory>
    ensures { IfOk result (λ rooted. rooted ≡ spec.with_roots roots.now schema.now) }
{
    Ok(Schema {
        classes: schema.classes.copy()?,
        upgraded: schema.upgraded.copy()?,
        roots: roots.copy()?,
    })
}

/// Whether a root has a name of the language.
fn is_named(root: &Root) -> bool
    ensures { result ≡ fits_word root.now.name }
{
    match Word::new(root.name.as_slice()) {
        Some(_) => true,
        None => false,
    }
}

/// Whether each root has a name of the language.
fn are_named(roots: &Roots) -> bool
    ensures { result ≡ are_named roots.now }
{
    roots.as_slice().iter().all(|root| is_named(root))
}

/// The name of a root; an empty one where it is none of the language's.
fn root_text(root: &Root) -> Word
    ensures { result ≡ unwrap_or (word_from root.now.name) [] }
{
    match Word::new(root.name.as_slice()) {
        Some(text) => text,
        None => Word::empty(),
    }
}

/// The name of a class by its number; an empty one past the last class.
fn class_text(classes: &Classes, class: u16) -> Word
    ensures { result ≡ spec.class_text (slice_get classes.now class) }
{
    match classes.get(usize::from(class)) {
        Some(class) => class.name.text,
        None => Word::empty(),
    }
}

/// A stored root as a setup declares it.
fn declared_root(classes: &Classes, root: &Root) -> RootDeclaration
    ensures { result ≡ declared_root classes.now root.now }
{
    RootDeclaration {
        name: Name {
            text: root_text(root),
            line: 1,
        },
        class: Name {
            text: class_text(classes, root.class),
            line: 1,
        },
        at: None,
        oref: root.oref,
    }
}

/// Stored roots as a setup declares them.
fn declared(alloc: Global, classes: &Classes, roots: &Roots) -> Result<RootDeclarations, NoMemory>
    ensures { IfOk result (λ declared. declared ≡ declared_roots classes.now roots.now) }
{
    let mut declared = RootDeclarations::new(alloc);
    for root in roots.as_slice() {
        declared.push(declared_root(classes, root))?;
    }
    Ok(declared)
}

/// The upgrade that tokens spell.
fn upgrade_in(alloc: Global, tokens: &Tokens) -> Result<Option<Upgrade>, NoMemory>
    ensures { IfOk result (FindsOnly (SpellsUpgrade tokens.now)) }
{
    match parse_upgrade(alloc, tokens) {
        Ok(upgrade) => Ok(Some(upgrade)),
        Err(SyntaxError::Fault(_)) => Ok(None),
        Err(SyntaxError::NoMemory) => Err(NoMemory),
    }
}

/// The upgrade that a text spells.
fn upgrade_of(alloc: Global, text: &Text) -> Result<Option<Upgrade>, NoMemory>
    ensures { IfOk result (FindsOnly (IsText SpellsUpgrade text.now)) }
{
    match tokens_of(alloc, text)? {
        Some(tokens) => upgrade_in(alloc, &tokens),
        None => Ok(None),
    }
}

/// The epoch to which an upgrade leads, where the schema behind it stands.
fn epoch_of(
    behind: Checked,
    upgrade: Upgrade,
    roots: &RootDeclarations,
) -> Result<(Checked, UpgradedSchema), NoMemory>
    ensures standing { IfOk result (λ made. made.0 ≡ behind) }
    ensures upgrade { IfOk result (λ made. made.1.upgrade ≡ upgrade) }
    ensures schema { IfOk result (λ made. made.1.schema ≡ spec.with_roots roots.now behind.schema) }
{
    let (upgrade, schema) = both(upgrade, with_roots(&behind.schema, roots))?;
    Ok((behind, UpgradedSchema { upgrade, schema }))
}

/// The schema behind an upgrade that breaks no rule, and the epoch to which it leads. Want of memory, too, where there is no
/// number for it.
fn behind_upgrade(
    alloc: Global,
    standing: &Checked,
    upgrade: Upgrade,
    roots: &RootDeclarations,
) -> Result<Option<(Checked, UpgradedSchema)>, NoMemory>
    ensures epoch { IfOk result (λ found. FindsOnly (IsEpochOf standing.now.repos roots.now standing.now.schema upgrade) (option_map (λ made. made.1) found)) }
    ensures standing { IfOk result (λ found. IfSome found (IsBehind standing.now)) }
{
    if standing.schema.classes.len() > CLASSES || !has_next_number(&standing.schema) {
        drop(upgrade);
        return Err(NoMemory);
    }
    match own_check(alloc, standing, &upgrade, &Blocks::new(alloc)) {
        Ok(owned) => Ok(Some(epoch_of(owned.checked, upgrade, roots)?)),
        Err(CheckError::Broken(_)) => {
            drop(upgrade);
            Ok(None)
        }
        Err(CheckError::NoMemory) => {
            drop(upgrade);
            Err(NoMemory)
        }
    }
}

/// The schema behind the upgrade that a text spells, and the epoch to which it leads.
fn behind_text(
    alloc: Global,
    standing: Checked,
    text: &Text,
    roots: &RootDeclarations,
) -> Result<Option<(Checked, UpgradedSchema)>, NoMemory>
    ensures epoch { IfOk result (λ found. FindsOnly (SpellsEpoch standing.repos roots.now standing.schema text.now) (option_map (λ made. made.1) found)) }
    ensures standing { IfOk result (λ found. IfSome found (IsBehind standing)) }
{
    match upgrade_of(alloc, text)? {
        Some(upgrade) => behind_upgrade(alloc, &standing, upgrade, roots),
        None => Ok(None),
    }
}

/// The epochs that texts spell behind a schema without roots.
fn epochs_behind(
    alloc: Global,
    first: Checked,
    roots: &RootDeclarations,
    texts: &[Text],
) -> Result<Option<UpgradedSchemas>, NoMemory>
    ensures { IfOk result (FindsOnly (SpellEpochs first.repos roots.now first.schema texts.now)) }
{
    let mut epochs = UpgradedSchemas::new(alloc);
    let mut standing = first;
    for text in texts {
        match behind_text(alloc, standing, text, roots)? {
            Some((behind, epoch)) => {
                standing = behind;
                epochs.push(epoch)?;
            }
            None => return Ok(None),
        }
    }
    Ok(Some(epochs))
}

/// Whether the first schema of a store breaks no rule with its roots, over so many repositories.
pub fn is_lawful(alloc: Global, schemas: &Schemas, repos: u8) -> Result<bool, NoMemory>
    ensures kept { IfOk result (λ lawful. lawful ≡ true → schema_rules schemas.now.first repos ≡ []) }
    ensures broken { length schemas.now.first.classes ≤ 65536 → IfOk result (λ lawful. lawful ≡ false → schema_rules schemas.now.first repos ≡ [] → ⊥) }
{
    if schemas.first.classes.len() > CLASSES {
        return Ok(false);
    }
    match check(alloc, &schemas.first, repos) {
        Ok(_) => Ok(true),
        Err(CheckError::Broken(_)) => Ok(false),
        Err(CheckError::NoMemory) => Err(NoMemory),
    }
}
