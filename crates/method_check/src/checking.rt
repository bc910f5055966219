ghost use Rattle.std.specs.Prelude.{◌≡◌, ◌≤◌, [], length, IfOk, OnOk, IfErr};
ghost use Rattle.std.specs.List.{flat_map};
ghost use Rattle.class_defs.specs.Rules as rules;
ghost use Rattle.class_defs.specs.Rules.{least, least_with};
ghost use Rattle.class_defs.specs.SchemaRules as spec;
ghost use Rattle.class_defs.specs.SchemaRules.{schema_rules, item_rules};
ghost use Rattle.method_check.specs.Told.{Tells};

use crate::assignments::is_root_class;
use crate::blocks::block;
use crate::body::Body;
use crate::classes::classes;
use crate::declared::names_of;
use crate::error::CheckError;
use crate::least::must;
use crate::names::{names_in, stand_once};
use class_defs::{
    Block, Checked, Classes, ExprType, NamedTypes, Names, RootDeclaration, Rule, RuleFault, Schema,
};
use std::alloc::Global;
use thor_value::{NoMemory, TryCopy};

/// T1 of the classes.
fn class_names(
    alloc: Global,
    schema: &Schema,
    found: &mut Option<RuleFault>,
) -> Result<(), NoMemory>
    ensures { OnOk result (found.new ≡ least_with found.old (spec.class_names schema.now)) }
{
    let mut names = Names::new(alloc);
    names_of(schema.classes.as_slice(), &mut names)?;
    stand_once(alloc, &names, 0, found)
}

/// T1 of the roots.
fn root_names(alloc: Global, schema: &Schema, found: &mut Option<RuleFault>) -> Result<(), NoMemory>
    ensures { OnOk result (found.new ≡ least_with found.old (spec.root_names schema.now)) }
{
    let mut names = Names::new(alloc);
    names_of(schema.roots.as_slice(), &mut names)?;
    stand_once(alloc, &names, 0, found)
}

/// What a root breaks.
#[tactic(auto, using(crate::proofs::Pieces::least_append))]
fn root_rules(classes: &Classes, repos: u8, root: &RootDeclaration, found: &mut Option<RuleFault>)
    requires { length classes.now ≤ 65536 }
    ensures { found.new ≡ least_with found.old (spec.root_rules classes.now repos root.now) }
{
    is_root_class(classes, &root.class, found);
    if let Some(at) = root.at {
        let there = at.number < u64::from(repos);
        must(there, Rule::T8, at.number_line, found);
    }
}

/// What the roots break.
fn roots(classes: &Classes, repos: u8, roots: &[RootDeclaration], found: &mut Option<RuleFault>)
    requires { length classes.now ≤ 65536 }
    ensures { found.new ≡ least_with found.old (flat_map (spec.root_rules classes.now repos) roots.now) }
{
    for root in roots {
        root_rules(classes, repos, root, found);
    }
}

/// Notes what the classes and roots of a schema break of the rules T1 to T8, over so many repositories.
///
/// `found` is then the fault that is told of these and of the one found before.
#[tactic(auto, using(crate::proofs::Pieces::least_append), unfolding(class_defs::specs::SchemaRules::schema_rules))]
pub fn note_schema(
    alloc: Global,
    schema: &Schema,
    repos: u8,
    found: &mut Option<RuleFault>,
) -> Result<(), NoMemory>
    requires few_classes { length schema.now.classes ≤ 65536 }
    ensures found { OnOk result (found.new ≡ least_with found.old (schema_rules schema.now repos)) }
{
    class_names(alloc, schema, found)?;
    root_names(alloc, schema, found)?;
    classes(alloc, schema, repos, found)?;
    roots(&schema.classes, repos, schema.roots.as_slice(), found);
    Ok(())
}

/// The fault of a schema that is told.
fn schema_fault(alloc: Global, schema: &Schema, repos: u8) -> Result<Option<RuleFault>, NoMemory>
    requires { length schema.now.classes ≤ 65536 }
    ensures { IfOk result (λ fault. fault ≡ least (schema_rules schema.now repos)) }
{
    let mut found = None;
    note_schema(alloc, schema, repos, &mut found)?;
    Ok(found)
}

/// Checks the rules T1 to T8 of the classes and roots of a schema, over so many repositories.
///
/// `Broken` has the least line that breaks a rule, and of those on it the least rule.
pub fn check(alloc: Global, schema: &Schema, repos: u8) -> Result<Checked, CheckError>
    requires few_classes { length schema.now.classes ≤ 65536 }
    ensures sound { OnOk result (schema_rules schema.now repos ≡ []) }
    ensures schema { IfOk result (λ checked. checked.schema ≡ schema.now) }
    ensures repos { IfOk result (λ checked. checked.repos ≡ repos) }
    ensures broken { IfErr result (λ error. Tells error (least (schema_rules schema.now repos))) }
{
    match schema_fault(alloc, schema, repos)? {
        Some(fault) => Err(CheckError::Broken(fault)),
        None => Ok(Checked::new(schema.copy()?, repos)),
    }
}

/// T1 of an item's locals.
fn item_names(
    alloc: Global,
    schema: &Schema,
    item: &Block,
    found: &mut Option<RuleFault>,
) -> Result<(), NoMemory>
    ensures { OnOk result (found.new ≡ least_with found.old (spec.item_names schema.now item.now)) }
{
    let mut locals = Names::new(alloc);
    names_in(item, &mut locals)?;
    if locals.is_empty() {
        return Ok(());
    }
    let mut names = Names::new(alloc);
    names_of(schema.roots.as_slice(), &mut names)?;
    let roots = names.len();
    names_in(item, &mut names)?;
    stand_once(alloc, &names, roots, found)
}

/// Notes what a transaction breaks of the rules T1 to T8 under a schema, over so many repositories; the
/// schema may break rules itself.
///
/// `found` is then the fault that is told of these and of the one found before.
#[tactic(auto, using(crate::proofs::Pieces::least_append), unfolding(class_defs::specs::SchemaRules::item_rules))]
pub fn note_item(
    alloc: Global,
    schema: &Schema,
    item: &Block,
    repos: u8,
    found: &mut Option<RuleFault>,
) -> Result<(), NoMemory>
    requires few_classes { length schema.now.classes ≤ 65536 }
    ensures found { OnOk result (found.new ≡ least_with found.old (item_rules schema.now repos item.now)) }
{
    item_names(alloc, schema, item, found)?;
    let body = Body {
        schema,
        repos,
        this: None,
        result: ExprType::Untold,
    };
    let mut locals = NamedTypes::new(alloc);
    block(&body, &mut locals, item, found)
}

/// The fault of an item that is told.
fn item_fault(
    alloc: Global,
    schema: &Schema,
    item: &Block,
    repos: u8,
) -> Result<Option<RuleFault>, NoMemory>
    requires { length schema.now.classes ≤ 65536 }
    ensures { IfOk result (λ fault. fault ≡ least (item_rules schema.now repos item.now)) }
{
    let mut found = None;
    note_item(alloc, schema, item, repos, &mut found)?;
    Ok(found)
}

/// Checks the rules T1 to T8 of a transaction under a schema, over so many repositories.
///
/// `Broken` has the least line that breaks a rule, and of those on it the least rule.
pub fn check_item(
    alloc: Global,
    schema: &Checked,
    item: &Block,
    repos: u8,
) -> Result<(), CheckError>
    requires few_classes { length schema.now.schema.classes ≤ 65536 }
    ensures sound { OnOk result (item_rules schema.now.schema repos item.now ≡ []) }
    ensures broken { IfErr result (λ error. Tells error (least (item_rules schema.now.schema repos item.now))) }
{
    match item_fault(alloc, &schema.schema, item, repos)? {
        Some(fault) => Err(CheckError::Broken(fault)),
        None => Ok(()),
    }
}
