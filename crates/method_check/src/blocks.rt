ghost use Rattle.std.specs.Prelude.{◌≡◌, ◌++◌, OnOk};
ghost use Rattle.class_defs.specs.Rules.{least_with};
ghost use Rattle.class_defs.specs.StatementRules.{ruled, block_rules};
ghost use Rattle.method_check.specs.Bodies.{sight};

use crate::assignments::{
    assign_rules, declare, field_assign_rules, must_be_number, must_be_printable, must_fit,
    var_rules,
};
use crate::body::Body;
use crate::judge::judge;
use class_defs::{Block, NamedTypes, Position, RuleFault, Stmt};
use thor_value::NoMemory;

/// Finds the rules that a statement breaks, and puts the local that it declares in sight.
#[cycle(blocks)]
#[tactic(auto, using(crate::proofs::Pieces::least_append, crate::proofs::StatementForms::ruled_if, crate::proofs::StatementForms::ruled_if_else, crate::proofs::StatementForms::ruled_while), unfolding(class_defs::specs::StatementRules::ruled))]
fn statement(
    body: &Body<'_>,
    locals: &mut NamedTypes,
    stmt: &Stmt,
    found: &mut Option<RuleFault>,
) -> Result<(), NoMemory>
    ensures broken { OnOk result (found.new ≡ least_with found.old ((ruled stmt.now).broken (sight body.now locals.old))) }
    ensures locals { OnOk result (locals.new ≡ locals.old ++ (ruled stmt.now).declares body.now.schema.now.classes) }
{
    match stmt {
        Stmt::Var {
            type_name,
            name,
            line,
            value,
        } => {
            var_rules(body, locals, type_name, *line, value, found);
            declare(body, locals, type_name, name)?;
        }
        Stmt::Assign { name, line, value } => {
            assign_rules(body, locals, name, *line, value, found);
        }
        Stmt::FieldAssign { field, line, value } => {
            field_assign_rules(body, locals, field, *line, value, found);
        }
        Stmt::Return { value } => must_fit(body, locals, body.result, value, found),
        Stmt::If { condition, then } => {
            must_be_number(body, locals, condition, found);
            block(body, locals, then, found)?;
        }
        Stmt::IfElse {
            condition,
            then,
            otherwise,
        } => {
            must_be_number(body, locals, condition, found);
            block(body, locals, then, found)?;
            block(body, locals, otherwise, found)?;
        }
        Stmt::While {
            condition,
            body: repeated,
        } => {
            must_be_number(body, locals, condition, found);
            block(body, locals, repeated, found)?;
        }
        Stmt::Print { value } => must_be_printable(body, locals, value, found),
        Stmt::Evaluate { value } => {
            judge(body, locals, value, Position::Value, found);
        }
    }
    Ok(())
}

/// Finds the rules that a block breaks. Behind it its locals are out of sight.
#[cycle(blocks)]
#[tactic(auto, using(crate::proofs::Pieces::least_append))]
pub fn block(
    body: &Body<'_>,
    locals: &mut NamedTypes,
    stmts: &Block,
    found: &mut Option<RuleFault>,
) -> Result<(), NoMemory>
    ensures broken { OnOk result (found.new ≡ least_with found.old (block_rules (sight body.now locals.old) stmts.now)) }
    ensures locals { OnOk result (locals.new ≡ locals.old) }
{
    let count = locals.len();
    for stmt in stmts.as_slice() {
        statement(body, locals, stmt, found)?;
    }
    locals.truncate(count);
    Ok(())
}
