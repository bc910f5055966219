ghost use Rattle.std.specs.Prelude.{◌≡◌, ◌++◌, ◌∷◌, ◌≤◌, [], List, length, take, drop, map, not, IfOk, OnOk};
ghost use Rattle.std.specs.List.{list_any};
ghost use Rattle.std.specs.Str.{bytes_eq};
ghost use Rattle.class_defs.specs.Rules as rules;
ghost use Rattle.class_defs.specs.Rules.{least_with};
ghost use Rattle.class_defs.specs.StatementRules.{names_declared, names_in};
ghost use Rattle.class_defs.specs.declared.expressions.Name.{Name};
ghost use Rattle.class_defs.specs.declared.rules.Rule.TheVariants.{T1};
ghost use Rattle.method_check.specs.Seen.{Has};

use crate::least::must;
use class_defs::{Block, Name, Names, Rule, RuleFault, Stmt};
use std::alloc::Global;
use std::collections::HashSet;
use thor_value::{NoMemory, TryCopy};

/// Puts the locals that a statement declares behind the names, in the order of the text.
#[cycle(names)]
#[tactic(auto, using(crate::proofs::NameForms::names_if, crate::proofs::NameForms::names_if_else, crate::proofs::NameForms::names_while, std::proofs::Common::append_assoc), unfolding(class_defs::specs::StatementRules::names_declared))]
fn names_declared(stmt: &Stmt, names: &mut Names) -> Result<(), NoMemory>
    ensures { OnOk result (names.new ≡ names.old ++ names_declared stmt.now) }
{
    match stmt {
        Stmt::Var {
            type_name: _,
            name,
            line: _,
            value: _,
        } => names.push(name.copy()?),
        Stmt::If { condition: _, then } => names_in(then, names),
        Stmt::IfElse {
            condition: _,
            then,
            otherwise,
        } => {
            names_in(then, names)?;
            names_in(otherwise, names)
        }
        Stmt::While { condition: _, body } => names_in(body, names),
        Stmt::Assign {
            name: _,
            line: _,
            value: _,
        } => Ok(()),
        Stmt::FieldAssign {
            field: _,
            line: _,
            value: _,
        } => Ok(()),
        Stmt::Return { value: _ } => Ok(()),
        Stmt::Print { value: _ } => Ok(()),
        Stmt::Evaluate { value: _ } => Ok(()),
    }
}

/// Puts the locals that a body declares behind the names, in the order of the text.
#[cycle(names)]
pub fn names_in(block: &Block, names: &mut Names) -> Result<(), NoMemory>
    ensures { OnOk result (names.new ≡ names.old ++ names_in block.now) }
{
    for stmt in block.as_slice() {
        names_declared(stmt, names)?;
    }
    Ok(())
}

/// The texts of names.
type Seen = HashSet<Vec<u8>>;

/// Puts a name among those that were seen, and answers whether it is new.
fn is_new(alloc: Global, seen: &mut Seen, name: &Name) -> Result<bool, NoMemory>
    ensures new { IfOk result (λ new. (earlier : List Name) → Has seen.old earlier → new ≡ not (list_any (λ m. bytes_eq m.text name.now.text) earlier)) }
    ensures seen { OnOk result ((earlier : List Name) → Has seen.old earlier → Has seen.new (earlier ++ name.now ∷ [])) }
{
    let text = Vec::from_slice(alloc, name.text.bytes())?;
    Ok(seen.insert(text)?)
}

/// T1 of one name behind those that were seen.
fn stands_once(
    alloc: Global,
    seen: &mut Seen,
    name: &Name,
    found: &mut Option<RuleFault>,
) -> Result<(), NoMemory>
    ensures found { OnOk result ((earlier : List Name) → Has seen.old earlier → found.new ≡ least_with found.old (rules.must (not (list_any (λ m. bytes_eq m.text name.now.text) earlier)) T1 name.now.line)) }
    ensures seen { OnOk result ((earlier : List Name) → Has seen.old earlier → Has seen.new (earlier ++ name.now ∷ [])) }
{
    let new = is_new(alloc, seen, name)?;
    must(new, Rule::T1, name.line, found);
    Ok(())
}

/// The first few of the names.
fn seen_of(alloc: Global, names: &[Name]) -> Result<Seen, NoMemory>
    ensures { IfOk result (λ seen. Has seen names.now) }
{
    let mut seen = Seen::new(alloc);
    for name in names {
        is_new(alloc, &mut seen, name)?;
    }
    Ok(seen)
}

/// T1 of the names behind the first few.
pub fn stand_once(
    alloc: Global,
    names: &Names,
    earlier: usize,
    found: &mut Option<RuleFault>,
) -> Result<(), NoMemory>
    requires { earlier ≤ length names.now }
    ensures { OnOk result (found.new ≡ least_with found.old (rules.stand_once (take earlier names.now) (drop earlier names.now))) }
{
    let all = names.as_slice();
    let mut seen = seen_of(alloc, &all[..earlier])?;
    for place in earlier..all.len() {
        stands_once(alloc, &mut seen, &all[place], found)?;
    }
    Ok(())
}
