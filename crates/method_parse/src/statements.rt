//! Statements and blocks, by descent: the room for brackets shrinks on the way down.

ghost use Rattle.std.specs.Prelude.{◌≡◌, ◌<◌, ◌-◌};
ghost use Rattle.method_parse.specs.Reader.{Gives};
ghost use Rattle.method_parse.specs.Statements.{expression, ended, condition, variable, returned, printed, evaluated, assigned_name, assigned_field, after_expression, simple, after_branch, branch, while_loop, statement, more_statements, statements, braces, block_in};

use crate::deep::{Level, Room, StmtStart};
use crate::error::ParseError;
use crate::expressions::expression_in;
use crate::starts::{goes_on, statement_start};
use crate::take::{name, next_is, type_word, word};
use class_defs::{Block, Expr, Name, Place, Stmt, Stmts};
use script_text::Token;
use std::alloc::Global;
use thor_value::both;

/// How high an expression may be as a tree.
const MAX_DEPTH: u32 = 32;

/// A whole expression, with room for brackets.
#[tactic(auto, unfolding(crate::specs::Statements::expression))]
fn expression(
    alloc: Global,
    place: Place,
    brackets: u32,
    tokens: &[Token],
) -> Result<(Expr, &[Token]), ParseError>
    ensures { Gives (λ x. (x.0, x.1.now)) result (expression place brackets tokens.now) }
{
    let depth = MAX_DEPTH;
    let room = Room { brackets, depth };
    let (read, rest) = expression_in(alloc, place, room, Level::Comparison, tokens)?;
    Ok((read.expr, rest))
}

/// An expression and the `;` behind it.
#[tactic(auto, unfolding(crate::specs::Statements::ended))]
fn ended(
    alloc: Global,
    place: Place,
    brackets: u32,
    tokens: &[Token],
) -> Result<(Expr, &[Token]), ParseError>
    ensures { Gives (λ x. (x.0, x.1.now)) result (ended place brackets tokens.now) }
{
    let (value, rest) = expression(alloc, place, brackets, tokens)?;
    let (value, (_, rest)) = both(value, word(rest, b";"))?;
    Ok((value, rest))
}

/// A condition in its parentheses.
#[tactic(auto, unfolding(crate::specs::Statements::condition))]
fn condition(
    alloc: Global,
    place: Place,
    brackets: u32,
    tokens: &[Token],
) -> Result<(Expr, &[Token]), ParseError>
    requires { 0 < brackets }
    ensures { Gives (λ x. (x.0, x.1.now)) result (condition place brackets tokens.now) }
{
    let (_, rest) = word(tokens, b"(")?;
    let (value, rest) = expression(alloc, place, brackets - 1, rest)?;
    let (value, (_, rest)) = both(value, word(rest, b")"))?;
    Ok((value, rest))
}

#[tactic(auto, unfolding(crate::specs::Statements::variable))]
fn variable(
    alloc: Global,
    place: Place,
    brackets: u32,
    tokens: &[Token],
) -> Result<(Stmt, &[Token]), ParseError>
    ensures { Gives (λ x. (x.0, x.1.now)) result (variable place brackets tokens.now) }
{
    let (_, rest) = word(tokens, b"var")?;
    let (type_name, rest) = match type_word(rest) {
        Ok(read) => read,
        Err(error) => return Err(error),
    };
    let (name, rest) = match name(rest) {
        Ok(read) => read,
        Err(error) => return Err(error),
    };
    let (line, rest) = word(rest, b"=")?;
    let (value, rest) = ended(alloc, place, brackets, rest)?;
    let stmt = Stmt::Var {
        type_name,
        name,
        line,
        value,
    };
    Ok((stmt, rest))
}

#[tactic(auto, unfolding(crate::specs::Statements::returned))]
fn returned(
    alloc: Global,
    place: Place,
    brackets: u32,
    tokens: &[Token],
) -> Result<(Stmt, &[Token]), ParseError>
    ensures { Gives (λ x. (x.0, x.1.now)) result (returned place brackets tokens.now) }
{
    let (_, rest) = word(tokens, b"return")?;
    let (value, rest) = ended(alloc, place, brackets, rest)?;
    Ok((Stmt::Return { value }, rest))
}

#[tactic(auto, unfolding(crate::specs::Statements::printed))]
fn printed(
    alloc: Global,
    place: Place,
    brackets: u32,
    tokens: &[Token],
) -> Result<(Stmt, &[Token]), ParseError>
    ensures { Gives (λ x. (x.0, x.1.now)) result (printed place brackets tokens.now) }
{
    let (_, rest) = word(tokens, b"print")?;
    let (value, rest) = ended(alloc, place, brackets, rest)?;
    Ok((Stmt::Print { value }, rest))
}

/// The `;` behind an expression whose value is given up.
#[tactic(auto, unfolding(crate::specs::Statements::evaluated))]
fn evaluated(value: Expr, tokens: &[Token]) -> Result<(Stmt, &[Token]), ParseError>
    ensures { Gives (λ x. (x.0, x.1.now)) result (evaluated value tokens.now) }
{
    let (_, rest) = word(tokens, b";")?;
    Ok((Stmt::Evaluate { value }, rest))
}

/// What stands behind a name that begins a statement and is a whole expression.
#[tactic(auto, unfolding(crate::specs::Statements::assigned_name))]
fn assigned_name(
    alloc: Global,
    place: Place,
    brackets: u32,
    name: Name,
    tokens: &[Token],
) -> Result<(Stmt, &[Token]), ParseError>
    ensures { Gives (λ x. (x.0, x.1.now)) result (assigned_name place brackets name tokens.now) }
{
    if !next_is(tokens, b"=") {
        return evaluated(Expr::Variable { name }, tokens);
    }
    let (line, rest) = word(tokens, b"=")?;
    let (value, rest) = ended(alloc, place, brackets, rest)?;
    Ok((Stmt::Assign { name, line, value }, rest))
}

/// What stands behind a field of `this` that begins a statement and is a whole expression.
#[tactic(auto, unfolding(crate::specs::Statements::assigned_field))]
fn assigned_field(
    alloc: Global,
    place: Place,
    brackets: u32,
    field: Name,
    tokens: &[Token],
) -> Result<(Stmt, &[Token]), ParseError>
    ensures { Gives (λ x. (x.0, x.1.now)) result (assigned_field place brackets field tokens.now) }
{
    if !next_is(tokens, b"=") {
        return evaluated(Expr::Field { name: field }, tokens);
    }
    let (line, rest) = word(tokens, b"=")?;
    let (value, rest) = ended(alloc, place, brackets, rest)?;
    Ok((Stmt::FieldAssign { field, line, value }, rest))
}

/// What stands behind an expression that begins a statement.
#[tactic(auto, unfolding(crate::specs::Statements::after_expression))]
fn after_expression(
    alloc: Global,
    place: Place,
    brackets: u32,
    value: Expr,
    tokens: &[Token],
) -> Result<(Stmt, &[Token]), ParseError>
    ensures { Gives (λ x. (x.0, x.1.now)) result (after_expression place brackets value tokens.now) }
{
    match value {
        Expr::Variable { name } => assigned_name(alloc, place, brackets, name, tokens),
        Expr::Field { name } => assigned_field(alloc, place, brackets, name, tokens),
        other => evaluated(other, tokens),
    }
}

/// A statement that begins with an expression.
#[tactic(auto, unfolding(crate::specs::Statements::simple))]
fn simple(
    alloc: Global,
    place: Place,
    brackets: u32,
    tokens: &[Token],
) -> Result<(Stmt, &[Token]), ParseError>
    ensures { Gives (λ x. (x.0, x.1.now)) result (simple place brackets tokens.now) }
{
    let (value, rest) = expression(alloc, place, brackets, tokens)?;
    after_expression(alloc, place, brackets, value, rest)
}

/// What stands behind the block of an `if`.
#[cycle(statement)]
#[tactic(auto, unfolding(crate::specs::Statements::after_branch))]
fn after_branch(
    alloc: Global,
    place: Place,
    brackets: u32,
    condition: Expr,
    then: Block,
    tokens: &[Token],
) -> Result<(Stmt, &[Token]), ParseError>
    ensures { Gives (λ x. (x.0, x.1.now)) result (after_branch (block_in place brackets) condition then tokens.now) }
{
    if !next_is(tokens, b"else") {
        return Ok((Stmt::If { condition, then }, tokens));
    }
    let (branch, (_, rest)) = both((condition, then), word(tokens, b"else"))?;
    let (branch, (otherwise, rest)) = both(branch, block_in(alloc, place, brackets, rest))?;
    let (condition, then) = branch;
    let stmt = Stmt::IfElse {
        condition,
        then,
        otherwise,
    };
    Ok((stmt, rest))
}

#[cycle(statement)]
#[tactic(auto, unfolding(crate::specs::Statements::branch))]
fn branch(
    alloc: Global,
    place: Place,
    brackets: u32,
    tokens: &[Token],
) -> Result<(Stmt, &[Token]), ParseError>
    requires { 0 < brackets }
    ensures { Gives (λ x. (x.0, x.1.now)) result (branch place brackets (block_in place brackets) tokens.now) }
{
    let (_, rest) = word(tokens, b"if")?;
    let (condition, rest) = condition(alloc, place, brackets, rest)?;
    let (condition, (then, rest)) = both(condition, block_in(alloc, place, brackets, rest))?;
    after_branch(alloc, place, brackets, condition, then, rest)
}

#[cycle(statement)]
#[tactic(auto, unfolding(crate::specs::Statements::while_loop))]
fn while_loop(
    alloc: Global,
    place: Place,
    brackets: u32,
    tokens: &[Token],
) -> Result<(Stmt, &[Token]), ParseError>
    requires { 0 < brackets }
    ensures { Gives (λ x. (x.0, x.1.now)) result (while_loop place brackets (block_in place brackets) tokens.now) }
{
    let (_, rest) = word(tokens, b"while")?;
    let (condition, rest) = condition(alloc, place, brackets, rest)?;
    let (condition, (body, rest)) = both(condition, block_in(alloc, place, brackets, rest))?;
    Ok((Stmt::While { condition, body }, rest))
}

/// A statement, with room for brackets.
#[cycle(statement)]
#[tactic(auto, unfolding(crate::specs::Statements::statement, crate::specs::Statements::statement_by))]
fn statement(
    alloc: Global,
    place: Place,
    brackets: u32,
    tokens: &[Token],
) -> Result<(Stmt, &[Token]), ParseError>
    ensures { Gives (λ x. (x.0, x.1.now)) result (statement place brackets (block_in place brackets) tokens.now) }
{
    match statement_start(place, brackets, tokens) {
        StmtStart::Var => variable(alloc, place, brackets, tokens),
        StmtStart::Return => returned(alloc, place, brackets, tokens),
        StmtStart::If => branch(alloc, place, brackets, tokens),
        StmtStart::While => while_loop(alloc, place, brackets, tokens),
        StmtStart::Print => printed(alloc, place, brackets, tokens),
        StmtStart::Other => simple(alloc, place, brackets, tokens),
    }
}

/// One more statement.
#[cycle(statement)]
#[tactic(auto, unfolding(crate::specs::Statements::more_statements))]
fn more_statements(
    alloc: Global,
    place: Place,
    brackets: u32,
    stmts: Stmts,
    tokens: &[Token],
) -> Result<(Stmts, &[Token]), ParseError>
    ensures { Gives (λ x. (x.0, x.1.now)) result (more_statements place brackets (block_in place brackets) stmts tokens.now) }
{
    let mut stmts = stmts;
    let (stmt, rest) = statement(alloc, place, brackets, tokens)?;
    stmts.push(stmt)?;
    Ok((stmts, rest))
}

/// Statements up to the `}`.
#[cycle(statement)]
fn statements(
    alloc: Global,
    place: Place,
    brackets: u32,
    tokens: &[Token],
) -> Result<(Stmts, &[Token]), ParseError>
    ensures { Gives (λ x. (x.0, x.1.now)) result (statements place brackets (block_in place brackets) tokens.now) }
{
    let mut stmts = Stmts::new(alloc);
    let mut rest = tokens;
    // Each statement takes a token, so there are no more of them than tokens.
    for _turn in 0..tokens.len() {
        if !goes_on(rest) {
            return Ok((stmts, rest));
        }
        let (more, after) = more_statements(alloc, place, brackets, stmts, rest)?;
        stmts = more;
        rest = after;
    }
    Ok((stmts, rest))
}

/// Statements between braces, with room for brackets inside.
#[cycle(statement)]
#[tactic(auto, unfolding(crate::specs::Statements::braces))]
fn braces(
    alloc: Global,
    place: Place,
    brackets: u32,
    tokens: &[Token],
) -> Result<(Block, &[Token]), ParseError>
    ensures { Gives (λ x. (x.0, x.1.now)) result (braces place brackets (block_in place brackets) tokens.now) }
{
    let (_, rest) = word(tokens, b"{")?;
    let (stmts, rest) = statements(alloc, place, brackets, rest)?;
    let (stmts, (_, rest)) = both(stmts, word(rest, b"}"))?;
    Ok((Block::new(alloc, stmts)?, rest))
}

/// Statements between braces, with room for brackets, the braces among them.
#[cycle(statement)]
pub fn block_in(
    alloc: Global,
    place: Place,
    brackets: u32,
    tokens: &[Token],
) -> Result<(Block, &[Token]), ParseError>
    ensures { Gives (λ x. (x.0, x.1.now)) result (block_in place brackets tokens.now) }
{
    if brackets == 0 {
        return Err(ParseError::Stuck(tokens.len()));
    }
    braces(alloc, place, brackets - 1, tokens)
}
