//! The expressions of new fields, by descent: each function reads one rule of the grammar. The room for the
//! depth shrinks on the way down, so the text sets no bound on the recursion.

ghost use Rattle.std.specs.Prelude.{◌≡◌, ◌<◌, ◌≤◌, ◌+◌, ◌-◌, ◌^◌, max, IfOk};
ghost use Rattle.class_defs.specs.declared.upgrades.Tf.TheVariants.{Binary as ABinary};
ghost use Rattle.method_parse.specs.Reader.{Gives};
ghost use Rattle.method_parse.specs.declared.deep.Level.TheVariants as levels;
ghost use Rattle.upgrade_defs.specs.Expressions.{all_names, at_level, dotted, expression_in, integer, joined, joins, leaf, more_names, parens, parts_of, path, primary, sum, term, text_literal, unary, value};

use crate::deep::Deep;
use crate::starts::{is_join, is_minus, is_open};
use class_defs::{Literal, Name, Names, Operator, Tf};
use method_parse::{
    Level, ParseError, name, next_is, next_is_quoted, number, operator, quoted, tighter, word,
};
use script_text::Token;
use std::alloc::Global;
use thor_value::{NoMemory, Shared, both};

/// How high the expression of a new field may be as a tree. Parentheses count in it, so that their own limit
/// of 64 is never met.
const MAX_DEPTH: u32 = 32;

fn leaf(value: Tf) -> Deep
    ensures { result ≡ leaf value }
{
    Deep { value, depth: 1 }
}

/// A name behind a dot.
#[tactic(auto, unfolding(crate::specs::Expressions::dotted))]
fn dotted(tokens: &[Token]) -> Result<(Name, &[Token]), ParseError>
    ensures { Gives (λ x. (x.0, x.1.now)) result (dotted tokens.now) }
{
    let (_, rest) = word(tokens, b".")?;
    let (one, rest) = match name(rest) {
        Ok(read) => read,
        Err(error) => return Err(error),
    };
    Ok((one, rest))
}

/// One more name of a path.
#[tactic(auto, unfolding(crate::specs::Expressions::more_names))]
fn more_names(names: Names, tokens: &[Token]) -> Result<(Names, &[Token]), ParseError>
    ensures { Gives (λ x. (x.0, x.1.now)) result (more_names names tokens.now) }
{
    let mut names = names;
    let (one, rest) = match dotted(tokens) {
        Ok(read) => read,
        Err(error) => return Err(error),
    };
    names.push(one)?;
    Ok((names, rest))
}

/// The names of a path behind the first.
fn all_names(first: Names, tokens: &[Token]) -> Result<(Names, &[Token]), ParseError>
    ensures { Gives (λ x. (x.0, x.1.now)) result (all_names first tokens.now) }
{
    let mut read = first;
    let mut rest = tokens;
    // Each name takes a token, so there are no more of them than tokens.
    for _turn in 0..tokens.len() {
        if !next_is(rest, b".") {
            return Ok((read, rest));
        }
        let (more, after) = more_names(read, rest)?;
        read = more;
        rest = after;
    }
    Ok((read, rest))
}

/// `old`, and names behind it.
#[tactic(auto, unfolding(crate::specs::Expressions::path))]
fn path(alloc: Global, tokens: &[Token]) -> Result<(Deep, &[Token]), ParseError>
    ensures read { Gives (λ x. (x.0, x.1.now)) result (path tokens.now) }
    ensures within { IfOk result (λ x. x.0.depth ≤ 1) }
{
    let (line, rest) = word(tokens, b"old")?;
    let (first, rest) = more_names(Names::new(alloc), rest)?;
    let (names, rest) = all_names(first, rest)?;
    Ok((leaf(Tf::Path { names, line }), rest))
}

#[tactic(auto, unfolding(crate::specs::Expressions::integer))]
fn integer(tokens: &[Token]) -> Result<(Deep, &[Token]), ParseError>
    ensures read { Gives (λ x. (x.0, x.1.now)) result (integer tokens.now) }
    ensures within { IfOk result (λ x. x.0.depth ≤ 1) }
{
    let ((value, line), rest) = number(tokens)?;
    let value = value as i64;
    let value = Literal::Int(value);
    Ok((leaf(Tf::Literal { value, line }), rest))
}

/// An operand of an expression in a room.
#[cycle(expression)]
fn operand(
    alloc: Global,
    room: u32,
    level: Level,
    tokens: &[Token],
) -> Result<(Deep, &[Token]), ParseError>
    requires { 0 < room }
    ensures read { Gives (λ x. (x.0, x.1.now)) result (parts_of room level tokens.now) }
    ensures within { IfOk result (λ x. x.0.depth < room) }
{
    expression_in(alloc, room - 1, level, tokens)
}

/// An expression in its parentheses.
#[cycle(expression)]
#[tactic(auto, unfolding(crate::specs::Expressions::parens))]
fn parens(alloc: Global, room: u32, tokens: &[Token]) -> Result<(Deep, &[Token]), ParseError>
    requires { 0 < room }
    ensures read { Gives (λ x. (x.0, x.1.now)) result (parens (parts_of room levels.Sum) tokens.now) }
    ensures within { IfOk result (λ x. x.0.depth ≤ room) }
{
    let (line, rest) = word(tokens, b"(")?;
    let (read, rest) = operand(alloc, room, Level::Sum, rest)?;
    let (read, (_, rest)) = both(read, word(rest, b")"))?;
    let inner = Shared::new(alloc, read.value)?;
    let value = Tf::Parens { inner, line };
    let depth = read.depth + 1;
    Ok((Deep { value, depth }, rest))
}

/// An expression without operators.
#[cycle(expression)]
#[tactic(auto, unfolding(crate::specs::Expressions::primary))]
fn primary(alloc: Global, room: u32, tokens: &[Token]) -> Result<(Deep, &[Token]), ParseError>
    requires { 0 < room }
    ensures read { Gives (λ x. (x.0, x.1.now)) result (primary room (parts_of room levels.Sum) tokens.now) }
    ensures within { IfOk result (λ x. x.0.depth ≤ room) }
{
    if next_is(tokens, b"old") {
        return path(alloc, tokens);
    }
    if is_open(room, tokens) {
        return parens(alloc, room, tokens);
    }
    integer(tokens)
}

/// An expression without operators, but for a minus before it.
#[cycle(expression)]
#[tactic(auto, unfolding(crate::specs::Expressions::unary))]
fn unary(alloc: Global, room: u32, tokens: &[Token]) -> Result<(Deep, &[Token]), ParseError>
    requires { 0 < room }
    ensures read { Gives (λ x. (x.0, x.1.now)) result (unary room (parts_of room) tokens.now) }
    ensures within { IfOk result (λ x. x.0.depth ≤ room) }
{
    if !is_minus(room, tokens) {
        return primary(alloc, room, tokens);
    }
    let (line, rest) = word(tokens, b"-")?;
    let (read, rest) = operand(alloc, room, Level::Unary, rest)?;
    let operand = Shared::new(alloc, read.value)?;
    let value = Tf::Negate { operand, line };
    let depth = read.depth + 1;
    Ok((Deep { value, depth }, rest))
}

/// An operator, whose line is given, between two operands.
fn binary(
    alloc: Global,
    operator: Operator,
    line: u32,
    left: Deep,
    right: Deep,
) -> Result<Deep, NoMemory>
    requires left { left.depth < 2 ^ 32 - 1 }
    requires right { right.depth < 2 ^ 32 - 1 }
    ensures { IfOk result (λ deep. deep ≡ record { value = ABinary operator left.value right.value line; depth = max left.depth right.depth + 1 }) }
{
    let depth = left.depth.max(right.depth) + 1;
    let (right, left) = both(right.value, Shared::new(alloc, left.value))?;
    let (left, right) = both(left, Shared::new(alloc, right))?;
    let value = Tf::Binary {
        operator,
        left,
        right,
        line,
    };
    Ok(Deep { value, depth })
}

/// One more operator of a level, and its right operand.
#[cycle(expression)]
#[tactic(auto, unfolding(crate::specs::Expressions::joined))]
fn joined(
    alloc: Global,
    room: u32,
    level: Level,
    left: Deep,
    tokens: &[Token],
) -> Result<(Deep, &[Token]), ParseError>
    requires depth { 0 < room }
    requires before { left.depth < room }
    ensures read { Gives (λ x. (x.0, x.1.now)) result (joined level (parts_of room) left tokens.now) }
    ensures within { IfOk result (λ x. x.0.depth ≤ room) }
{
    let (left, (operator, rest)) = both(left, operator(level, tokens))?;
    let (left, (right, rest)) = both(left, operand(alloc, room, tighter(level), rest))?;
    let (operator, line) = operator;
    Ok((binary(alloc, operator, line, left, right)?, rest))
}

/// The operators of a level behind an operand, each with its right operand.
#[cycle(expression)]
fn joins(
    alloc: Global,
    room: u32,
    level: Level,
    left: Deep,
    tokens: &[Token],
) -> Result<(Deep, &[Token]), ParseError>
    requires depth { 0 < room }
    requires before { left.depth ≤ room }
    ensures read { Gives (λ x. (x.0, x.1.now)) result (joins level room (parts_of room) left tokens.now) }
    ensures within { IfOk result (λ x. x.0.depth ≤ room) }
{
    let mut read = left;
    let mut rest = tokens;
    for _turn in 0..room {
        if !is_join(level, room, &read, rest) {
            return Ok((read, rest));
        }
        let (more, after) = joined(alloc, room, level, read, rest)?;
        read = more;
        rest = after;
    }
    Ok((read, rest))
}

/// Unary expressions with `*` between them.
#[cycle(expression)]
#[tactic(auto, unfolding(crate::specs::Expressions::term))]
fn term(alloc: Global, room: u32, tokens: &[Token]) -> Result<(Deep, &[Token]), ParseError>
    requires { 0 < room }
    ensures read { Gives (λ x. (x.0, x.1.now)) result (term room (parts_of room) tokens.now) }
    ensures within { IfOk result (λ x. x.0.depth ≤ room) }
{
    let (left, rest) = unary(alloc, room, tokens)?;
    joins(alloc, room, Level::Term, left, rest)
}

/// Terms with `+` and `-` between them.
#[cycle(expression)]
#[tactic(auto, unfolding(crate::specs::Expressions::sum))]
fn sum(alloc: Global, room: u32, tokens: &[Token]) -> Result<(Deep, &[Token]), ParseError>
    requires { 0 < room }
    ensures read { Gives (λ x. (x.0, x.1.now)) result (sum room (parts_of room) tokens.now) }
    ensures within { IfOk result (λ x. x.0.depth ≤ room) }
{
    let (left, rest) = term(alloc, room, tokens)?;
    joins(alloc, room, Level::Sum, left, rest)
}

/// An expression of a level. There are no comparisons, so the loosest is a sum.
#[cycle(expression)]
#[tactic(auto, unfolding(crate::specs::Expressions::at_level))]
fn at_level(
    alloc: Global,
    room: u32,
    level: Level,
    tokens: &[Token],
) -> Result<(Deep, &[Token]), ParseError>
    requires { 0 < room }
    ensures read { Gives (λ x. (x.0, x.1.now)) result (at_level room (parts_of room) level tokens.now) }
    ensures within { IfOk result (λ x. x.0.depth ≤ room) }
{
    match level {
        Level::Unary => unary(alloc, room, tokens),
        Level::Term => term(alloc, room, tokens),
        Level::Sum => sum(alloc, room, tokens),
        Level::Comparison => sum(alloc, room, tokens),
    }
}

/// An expression of a level, in a room. Without room for its depth no token can stand there.
#[cycle(expression)]
fn expression_in(
    alloc: Global,
    room: u32,
    level: Level,
    tokens: &[Token],
) -> Result<(Deep, &[Token]), ParseError>
    ensures read { Gives (λ x. (x.0, x.1.now)) result (expression_in room level tokens.now) }
    ensures within { IfOk result (λ x. x.0.depth ≤ room) }
{
    if room == 0 {
        return Err(ParseError::Stuck(tokens.len()));
    }
    at_level(alloc, room, level, tokens)
}

/// A text.
#[tactic(auto, unfolding(crate::specs::Expressions::text_literal))]
fn text_literal(tokens: &[Token]) -> Result<(Tf, &[Token]), ParseError>
    ensures { Gives (λ x. (x.0, x.1.now)) result (text_literal tokens.now) }
{
    match quoted(tokens) {
        Ok(((text, line), rest)) => {
            let value = Literal::Text(text);
            Ok((Tf::Literal { value, line }, rest))
        }
        Err(error) => Err(error),
    }
}

/// `null`, a text, or a sum.
#[tactic(auto, unfolding(crate::specs::Expressions::value))]
pub fn value(alloc: Global, tokens: &[Token]) -> Result<(Tf, &[Token]), ParseError>
    ensures { Gives (λ x. (x.0, x.1.now)) result (value tokens.now) }
{
    if next_is(tokens, b"null") {
        let (line, rest) = word(tokens, b"null")?;
        return Ok((Tf::Null { line }, rest));
    }
    if next_is_quoted(tokens) {
        return text_literal(tokens);
    }
    let (read, rest) = expression_in(alloc, MAX_DEPTH, Level::Sum, tokens)?;
    Ok((read.value, rest))
}
