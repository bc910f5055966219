//! Expressions, by descent: each function reads one rule of the grammar. The room for brackets and for
//! the depth shrinks on the way down, so the text sets no bound on the recursion.

ghost use Rattle.std.specs.Prelude.{◌≡◌, ◌<◌, ◌≤◌, ◌+◌, ◌-◌, ◌^◌, max, IfOk};
ghost use Rattle.class_defs.specs.declared.expressions.Expr.TheVariants.{Binary as ABinary};
ghost use Rattle.method_parse.specs.Reader.{Gives};
ghost use Rattle.method_parse.specs.Expressions.{at, operator, argument, more_arguments, some_arguments, listed, arguments, after_field, after_this, parens, created, primary_by, primary, call, called, calls, unary, joined, joins, at_level, expression_in, inner_of, parts_of};

use crate::deep::{Arguments, Deep, Level, Room, Start};
use crate::error::ParseError;
use crate::starts::{
    is_call, is_field_call, is_join, is_minus, most_joins, operator_in, start, tighter,
};
use crate::take::{name, next_is, number, quoted, word};
use class_defs::{At, Expr, Exprs, Literal, Name, Operator, Place};
use script_text::Token;
use std::alloc::Global;
use thor_value::{NoMemory, Sequence, Shared, both};

/// `at` and a number, or nothing.
#[tactic(auto, unfolding(crate::specs::Expressions::at))]
pub fn at(tokens: &[Token]) -> Result<(Option<At>, &[Token]), ParseError>
    ensures { Gives (λ x. (x.0, x.1.now)) result (at tokens.now) }
{
    if !next_is(tokens, b"at") {
        return Ok((None, tokens));
    }
    let (line, rest) = word(tokens, b"at")?;
    let ((number, number_line), rest) = number(rest)?;
    Ok((
        Some(At {
            line,
            number,
            number_line,
        }),
        rest,
    ))
}

/// Takes an operator of a level, and gives its line too.
#[tactic(auto, unfolding(crate::specs::Expressions::operator))]
pub fn operator(level: Level, tokens: &[Token]) -> Result<((Operator, u32), &[Token]), ParseError>
    ensures { Gives (λ x. (x.0, x.1.now)) result (operator level tokens.now) }
{
    match tokens.split_first() {
        None => Err(ParseError::Stuck(0)),
        Some((token, rest)) => match operator_in(level, token) {
            Some(operator) => Ok(((operator, token.line), rest)),
            None => Err(ParseError::Stuck(tokens.len())),
        },
    }
}

fn leaf(expr: Expr) -> Deep
    ensures { result ≡ record { expr = expr; depth = 1 } }
{
    Deep { expr, depth: 1 }
}

/// An expression in parentheses, or an argument, of an expression in a room.
#[cycle(expression)]
fn inner(
    alloc: Global,
    place: Place,
    room: Room,
    tokens: &[Token],
) -> Result<(Deep, &[Token]), ParseError>
    requires brackets { 0 < room.brackets }
    requires depth { 0 < room.depth }
    ensures read { Gives (λ x. (x.0, x.1.now)) result (inner_of place room tokens.now) }
    ensures within { IfOk result (λ x. x.0.depth < room.depth) }
{
    let smaller = Room {
        brackets: room.brackets - 1,
        depth: room.depth - 1,
    };
    expression_in(alloc, place, smaller, Level::Comparison, tokens)
}

/// An operand of an expression in a room.
#[cycle(expression)]
fn operand(
    alloc: Global,
    place: Place,
    room: Room,
    level: Level,
    tokens: &[Token],
) -> Result<(Deep, &[Token]), ParseError>
    requires { 0 < room.depth }
    ensures read { Gives (λ x. (x.0, x.1.now)) result (parts_of place room level tokens.now) }
    ensures within { IfOk result (λ x. x.0.depth < room.depth) }
{
    let smaller = Room {
        brackets: room.brackets,
        depth: room.depth - 1,
    };
    expression_in(alloc, place, smaller, level, tokens)
}

/// A comma, and one more argument.
#[cycle(expression)]
#[tactic(auto, unfolding(crate::specs::Expressions::argument))]
fn argument(
    alloc: Global,
    place: Place,
    room: Room,
    arguments: Arguments,
    tokens: &[Token],
) -> Result<(Arguments, &[Token]), ParseError>
    requires brackets { 0 < room.brackets }
    requires depth { 0 < room.depth }
    requires before { arguments.depth < room.depth }
    ensures read { Gives (λ x. (x.0, x.1.now)) result (argument (inner_of place room) arguments tokens.now) }
    ensures within { IfOk result (λ x. x.0.depth < room.depth) }
{
    let (_, rest) = word(tokens, b",")?;
    let (more, rest) = inner(alloc, place, room, rest)?;
    let Arguments { mut exprs, depth } = arguments;
    exprs.push(more.expr)?;
    let depth = depth.max(more.depth);
    Ok((Arguments { exprs, depth }, rest))
}

/// The arguments of a call, where there are any.
#[cycle(expression)]
#[tactic(auto, unfolding(crate::specs::Expressions::some_arguments))]
fn some_arguments(
    alloc: Global,
    place: Place,
    room: Room,
    tokens: &[Token],
) -> Result<(Arguments, &[Token]), ParseError>
    requires brackets { 0 < room.brackets }
    requires depth { 0 < room.depth }
    ensures read { Gives (λ x. (x.0, x.1.now)) result (some_arguments (inner_of place room) tokens.now) }
    ensures within { IfOk result (λ x. x.0.depth < room.depth) }
{
    let (first, rest) = inner(alloc, place, room, tokens)?;
    let mut exprs = Sequence::new(alloc);
    exprs.push(first.expr)?;
    let first = Arguments {
        exprs,
        depth: first.depth,
    };
    more_arguments(alloc, place, room, first, rest)
}

/// The arguments behind the first.
#[cycle(expression)]
fn more_arguments(
    alloc: Global,
    place: Place,
    room: Room,
    first: Arguments,
    tokens: &[Token],
) -> Result<(Arguments, &[Token]), ParseError>
    requires brackets { 0 < room.brackets }
    requires depth { 0 < room.depth }
    requires before { first.depth < room.depth }
    ensures read { Gives (λ x. (x.0, x.1.now)) result (more_arguments (inner_of place room) first tokens.now) }
    ensures within { IfOk result (λ x. x.0.depth < room.depth) }
{
    let mut read = first;
    let mut rest = tokens;
    // Each argument takes a token, so there are no more of them than tokens.
    for _turn in 0..tokens.len() {
        if !next_is(rest, b",") {
            return Ok((read, rest));
        }
        let (more, after) = argument(alloc, place, room, read, rest)?;
        read = more;
        rest = after;
    }
    Ok((read, rest))
}

/// The arguments of a call, up to the `)`.
#[cycle(expression)]
#[tactic(auto, unfolding(crate::specs::Expressions::listed))]
fn listed(
    alloc: Global,
    place: Place,
    room: Room,
    tokens: &[Token],
) -> Result<(Arguments, &[Token]), ParseError>
    requires brackets { 0 < room.brackets }
    requires depth { 0 < room.depth }
    ensures read { Gives (λ x. (x.0, x.1.now)) result (listed (inner_of place room) tokens.now) }
    ensures within { IfOk result (λ x. x.0.depth < room.depth) }
{
    if next_is(tokens, b")") {
        let exprs = Sequence::new(alloc);
        return Ok((Arguments { exprs, depth: 0 }, tokens));
    }
    some_arguments(alloc, place, room, tokens)
}

/// The arguments of a call, with their parentheses.
#[cycle(expression)]
#[tactic(auto, unfolding(crate::specs::Expressions::arguments))]
fn arguments(
    alloc: Global,
    place: Place,
    room: Room,
    tokens: &[Token],
) -> Result<(Arguments, &[Token]), ParseError>
    requires brackets { 0 < room.brackets }
    requires depth { 0 < room.depth }
    ensures read { Gives (λ x. (x.0, x.1.now)) result (arguments (inner_of place room) tokens.now) }
    ensures within { IfOk result (λ x. x.0.depth < room.depth) }
{
    let (_, rest) = word(tokens, b"(")?;
    let (read, rest) = listed(alloc, place, room, rest)?;
    let (_, rest) = word(rest, b")")?;
    Ok((read, rest))
}

/// What stands behind `this` and a name.
#[cycle(expression)]
#[tactic(auto, unfolding(crate::specs::Expressions::after_field))]
fn after_field(
    alloc: Global,
    place: Place,
    room: Room,
    line: u32,
    field: Name,
    tokens: &[Token],
) -> Result<(Deep, &[Token]), ParseError>
    requires { 0 < room.depth }
    ensures read { Gives (λ x. (x.0, x.1.now)) result (after_field room (inner_of place room) line field tokens.now) }
    ensures within { IfOk result (λ x. x.0.depth ≤ room.depth) }
{
    if !is_field_call(room, tokens) {
        return Ok((leaf(Expr::Field { name: field }), tokens));
    }
    let (read, rest) = arguments(alloc, place, room, tokens)?;
    let depth = read.depth.max(1) + 1;
    let (field, arguments) = both(field, Exprs::new(alloc, read.exprs))?;
    let (called, receiver) = both((field, arguments), Shared::new(alloc, Expr::This { line }))?;
    let (method, arguments) = called;
    let expr = Expr::Call {
        receiver,
        method,
        arguments,
    };
    Ok((Deep { expr, depth }, rest))
}

/// What stands behind `this`.
#[cycle(expression)]
#[tactic(auto, unfolding(crate::specs::Expressions::after_this))]
fn after_this(
    alloc: Global,
    place: Place,
    room: Room,
    line: u32,
    tokens: &[Token],
) -> Result<(Deep, &[Token]), ParseError>
    requires { 0 < room.depth }
    ensures read { Gives (λ x. (x.0, x.1.now)) result (after_this room (inner_of place room) line tokens.now) }
    ensures within { IfOk result (λ x. x.0.depth ≤ room.depth) }
{
    if !next_is(tokens, b".") {
        return Ok((leaf(Expr::This { line }), tokens));
    }
    let (_, rest) = word(tokens, b".")?;
    let (field, rest) = match name(rest) {
        Ok(read) => read,
        Err(error) => return Err(error),
    };
    after_field(alloc, place, room, line, field, rest)
}

/// An expression in its parentheses.
#[cycle(expression)]
#[tactic(auto, unfolding(crate::specs::Expressions::parens))]
fn parens(
    alloc: Global,
    place: Place,
    room: Room,
    tokens: &[Token],
) -> Result<(Deep, &[Token]), ParseError>
    requires brackets { 0 < room.brackets }
    requires depth { 0 < room.depth }
    ensures read { Gives (λ x. (x.0, x.1.now)) result (parens (inner_of place room) tokens.now) }
    ensures within { IfOk result (λ x. x.0.depth ≤ room.depth) }
{
    let (line, rest) = word(tokens, b"(")?;
    let (read, rest) = inner(alloc, place, room, rest)?;
    let (read, (_, rest)) = both(read, word(rest, b")"))?;
    let inner = Shared::new(alloc, read.expr)?;
    let expr = Expr::Parens { inner, line };
    let depth = read.depth + 1;
    Ok((Deep { expr, depth }, rest))
}

/// `new`, a class, and where the object is to lie.
#[tactic(auto, unfolding(crate::specs::Expressions::created))]
fn created(tokens: &[Token]) -> Result<(Deep, &[Token]), ParseError>
    ensures read { Gives (λ x. (x.0, x.1.now)) result (created tokens.now) }
    ensures within { IfOk result (λ x. x.0.depth ≤ 1) }
{
    let (_, rest) = word(tokens, b"new")?;
    let (class, rest) = match name(rest) {
        Ok(read) => read,
        Err(error) => return Err(error),
    };
    let (_, rest) = word(rest, b"(")?;
    let (_, rest) = word(rest, b")")?;
    let (at, rest) = at(rest)?;
    Ok((leaf(Expr::New { class, at }), rest))
}

/// An expression without operators and calls, but for a call on `this`.
#[cycle(expression)]
#[tactic(auto, unfolding(crate::specs::Expressions::primary, crate::specs::Expressions::primary_by))]
fn primary(
    alloc: Global,
    place: Place,
    room: Room,
    tokens: &[Token],
) -> Result<(Deep, &[Token]), ParseError>
    requires { 0 < room.depth }
    ensures read { Gives (λ x. (x.0, x.1.now)) result (primary place room (inner_of place room) tokens.now) }
    ensures within { IfOk result (λ x. x.0.depth ≤ room.depth) }
{
    match start(place, room, tokens) {
        Start::Number => {
            let ((value, line), rest) = number(tokens)?;
            let value = value as i64;
            let value = Literal::Int(value);
            Ok((leaf(Expr::Literal { value, line }), rest))
        }
        Start::Quoted => match quoted(tokens) {
            Ok(((text, line), rest)) => {
                let value = Literal::Text(text);
                Ok((leaf(Expr::Literal { value, line }), rest))
            }
            Err(error) => Err(error),
        },
        Start::Name => {
            let (name, rest) = match name(tokens) {
                Ok(read) => read,
                Err(error) => return Err(error),
            };
            Ok((leaf(Expr::Variable { name }), rest))
        }
        Start::Null => {
            let (line, rest) = word(tokens, b"null")?;
            Ok((leaf(Expr::Null { line }), rest))
        }
        Start::This => {
            let (line, rest) = word(tokens, b"this")?;
            after_this(alloc, place, room, line, rest)
        }
        Start::New => created(tokens),
        Start::Parens => parens(alloc, place, room, tokens),
        Start::Other => Err(ParseError::Stuck(tokens.len())),
    }
}

/// A call on an expression.
fn call(alloc: Global, receiver: Deep, method: Name, arguments: Arguments) -> Result<Deep, NoMemory>
    requires receiver { receiver.depth < 2 ^ 32 - 1 }
    requires arguments { arguments.depth < 2 ^ 32 - 1 }
    ensures { IfOk result (λ deep. deep ≡ call receiver method arguments) }
{
    let depth = receiver.depth.max(arguments.depth) + 1;
    let (callee, arguments) = both((receiver.expr, method), Exprs::new(alloc, arguments.exprs))?;
    let (receiver, method) = callee;
    let (behind, receiver) = both((method, arguments), Shared::new(alloc, receiver))?;
    let (method, arguments) = behind;
    let expr = Expr::Call {
        receiver,
        method,
        arguments,
    };
    Ok(Deep { expr, depth })
}

/// One more call.
#[cycle(expression)]
#[tactic(auto, unfolding(crate::specs::Expressions::called))]
fn called(
    alloc: Global,
    place: Place,
    room: Room,
    receiver: Deep,
    tokens: &[Token],
) -> Result<(Deep, &[Token]), ParseError>
    requires brackets { 0 < room.brackets }
    requires depth { 0 < room.depth }
    requires before { receiver.depth < room.depth }
    ensures read { Gives (λ x. (x.0, x.1.now)) result (called (inner_of place room) receiver tokens.now) }
    ensures within { IfOk result (λ x. x.0.depth ≤ room.depth) }
{
    let (receiver, (_, rest)) = both(receiver, word(tokens, b"."))?;
    let (method, rest) = match name(rest) {
        Ok(read) => read,
        Err(error) => {
            drop(receiver);
            return Err(error);
        }
    };
    let (called, (read, rest)) = both((receiver, method), arguments(alloc, place, room, rest))?;
    let (receiver, method) = called;
    Ok((call(alloc, receiver, method, read)?, rest))
}

/// The calls on an expression, one on the other.
#[cycle(expression)]
fn calls(
    alloc: Global,
    place: Place,
    room: Room,
    receiver: Deep,
    tokens: &[Token],
) -> Result<(Deep, &[Token]), ParseError>
    requires depth { 0 < room.depth }
    requires before { receiver.depth ≤ room.depth }
    ensures read { Gives (λ x. (x.0, x.1.now)) result (calls room (inner_of place room) receiver tokens.now) }
    ensures within { IfOk result (λ x. x.0.depth ≤ room.depth) }
{
    let mut read = receiver;
    let mut rest = tokens;
    for _turn in 0..room.depth {
        if !is_call(room, &read, rest) {
            return Ok((read, rest));
        }
        let (more, after) = called(alloc, place, room, read, rest)?;
        read = more;
        rest = after;
    }
    Ok((read, rest))
}

/// An expression without operators, but for a minus before it.
#[cycle(expression)]
#[tactic(auto, unfolding(crate::specs::Expressions::unary, crate::specs::Expressions::postfix))]
fn unary(
    alloc: Global,
    place: Place,
    room: Room,
    tokens: &[Token],
) -> Result<(Deep, &[Token]), ParseError>
    requires { 0 < room.depth }
    ensures read { Gives (λ x. (x.0, x.1.now)) result (unary place room (inner_of place room) (parts_of place room) tokens.now) }
    ensures within { IfOk result (λ x. x.0.depth ≤ room.depth) }
{
    if !is_minus(room, tokens) {
        let (read, rest) = primary(alloc, place, room, tokens)?;
        return calls(alloc, place, room, read, rest);
    }
    let (line, rest) = word(tokens, b"-")?;
    let (read, rest) = operand(alloc, place, room, Level::Unary, rest)?;
    let operand = Shared::new(alloc, read.expr)?;
    let expr = Expr::Negate { operand, line };
    let depth = read.depth + 1;
    Ok((Deep { expr, depth }, rest))
}

/// An operator, whose line is given, between two operands.
fn binary(
    alloc: Global,
    operator: Operator,
    line: u32,
    left: Deep,
    right: Deep,
) -> Result<Deep, NoMemory>
    requires left { left.depth < 2 ^ 32 - 1 }
    requires right { right.depth < 2 ^ 32 - 1 }
    ensures { IfOk result (λ deep. deep ≡ record { expr = ABinary operator left.expr right.expr line; depth = max left.depth right.depth + 1 }) }
{
    let depth = left.depth.max(right.depth) + 1;
    let (right, left) = both(right.expr, Shared::new(alloc, left.expr))?;
    let (left, right) = both(left, Shared::new(alloc, right))?;
    let expr = Expr::Binary {
        operator,
        left,
        right,
        line,
    };
    Ok(Deep { expr, depth })
}

/// One more operator of a level, and its right operand.
#[cycle(expression)]
#[tactic(auto, unfolding(crate::specs::Expressions::joined))]
fn joined(
    alloc: Global,
    place: Place,
    room: Room,
    level: Level,
    left: Deep,
    tokens: &[Token],
) -> Result<(Deep, &[Token]), ParseError>
    requires depth { 0 < room.depth }
    requires before { left.depth < room.depth }
    ensures read { Gives (λ x. (x.0, x.1.now)) result (joined level (parts_of place room) left tokens.now) }
    ensures within { IfOk result (λ x. x.0.depth ≤ room.depth) }
{
    let (left, (operator, rest)) = both(left, operator(level, tokens))?;
    let (left, (right, rest)) = both(left, operand(alloc, place, room, tighter(level), rest))?;
    let (operator, line) = operator;
    Ok((binary(alloc, operator, line, left, right)?, rest))
}

/// The operators of a level behind an operand, each with its right operand.
#[cycle(expression)]
fn joins(
    alloc: Global,
    place: Place,
    room: Room,
    level: Level,
    left: Deep,
    tokens: &[Token],
) -> Result<(Deep, &[Token]), ParseError>
    requires depth { 0 < room.depth }
    requires before { left.depth ≤ room.depth }
    ensures read { Gives (λ x. (x.0, x.1.now)) result (joins level room (parts_of place room) left tokens.now) }
    ensures within { IfOk result (λ x. x.0.depth ≤ room.depth) }
{
    let mut read = left;
    let mut rest = tokens;
    for _turn in 0..most_joins(level, room) {
        if !is_join(level, room, &read, rest) {
            return Ok((read, rest));
        }
        let (more, after) = joined(alloc, place, room, level, read, rest)?;
        read = more;
        rest = after;
    }
    Ok((read, rest))
}

/// An expression of a level.
#[cycle(expression)]
#[tactic(auto, unfolding(crate::specs::Expressions::at_level))]
fn at_level(
    alloc: Global,
    place: Place,
    room: Room,
    level: Level,
    tokens: &[Token],
) -> Result<(Deep, &[Token]), ParseError>
    requires { 0 < room.depth }
    ensures read { Gives (λ x. (x.0, x.1.now)) result (at_level place room (inner_of place room) (parts_of place room) level tokens.now) }
    ensures within { IfOk result (λ x. x.0.depth ≤ room.depth) }
{
    match level {
        Level::Unary => unary(alloc, place, room, tokens),
        Level::Term => {
            let (left, rest) = unary(alloc, place, room, tokens)?;
            joins(alloc, place, room, Level::Term, left, rest)
        }
        Level::Sum => {
            let (left, rest) = at_level(alloc, place, room, Level::Term, tokens)?;
            joins(alloc, place, room, Level::Sum, left, rest)
        }
        Level::Comparison => {
            let (left, rest) = at_level(alloc, place, room, Level::Sum, tokens)?;
            joins(alloc, place, room, Level::Comparison, left, rest)
        }
    }
}

/// An expression of a level, in a room. Without room for its depth no token can stand there.
#[cycle(expression)]
pub fn expression_in(
    alloc: Global,
    place: Place,
    room: Room,
    level: Level,
    tokens: &[Token],
) -> Result<(Deep, &[Token]), ParseError>
    ensures read { Gives (λ x. (x.0, x.1.now)) result (expression_in place room.brackets room.depth level tokens.now) }
    ensures within { IfOk result (λ x. x.0.depth ≤ room.depth) }
{
    if room.depth == 0 {
        return Err(ParseError::Stuck(tokens.len()));
    }
    at_level(alloc, place, room, level, tokens)
}
