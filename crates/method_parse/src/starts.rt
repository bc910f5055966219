//! What a token begins.

ghost use Rattle.std.specs.Prelude.{◌≡◌, ◌<◌};
ghost use Rattle.class_defs.specs.Shape.{in_method, in_item};
ghost use Rattle.method_parse.specs.Reader.{next};
ghost use Rattle.method_parse.specs.declared.deep.Start.TheVariants.{Parens};
ghost use Rattle.method_parse.specs.declared.deep.StmtStart.TheVariants.{If, While};
ghost use Rattle.method_parse.specs.Expressions.{may_call, is_field_call, is_minus, is_call, is_join, tighter, most_joins, operator_of, operator_in, fixed_start, start};
ghost use Rattle.method_parse.specs.Statements.{fixed_start as fixed_statement_start, start as statement_start, is_not_end};

use crate::deep::{Deep, Level, Room, Start, StmtStart};
use crate::take::is;
use class_defs::{Operator, Place};
use script_text::{Token, TokenKind};

pub fn in_method(place: Place) -> bool
    ensures { result ≡ in_method place }
{
    match place {
        Place::Method => true,
        Place::Item => false,
    }
}

pub fn in_item(place: Place) -> bool
    ensures { result ≡ in_item place }
{
    match place {
        Place::Method => false,
        Place::Item => true,
    }
}

/// Whether a bracket may open, and an expression have parts.
pub fn may_call(room: Room) -> bool
    ensures { result ≡ may_call room }
{
    0 < room.brackets && 1 < room.depth
}

/// Whether the next token begins a call of a method of `this`.
pub fn is_field_call(room: Room, tokens: &[Token]) -> bool
    ensures { result ≡ next (is_field_call room) tokens.now }
{
    match tokens.split_first() {
        None => false,
        Some((token, _)) => is(token, b"(") && may_call(room),
    }
}

/// Whether the next token is a minus before an operand.
pub fn is_minus(room: Room, tokens: &[Token]) -> bool
    ensures { result ≡ next (is_minus room) tokens.now }
{
    match tokens.split_first() {
        None => false,
        Some((token, _)) => is(token, b"-") && 1 < room.depth,
    }
}

/// Whether the next token begins a call of an expression.
pub fn is_call(room: Room, deep: &Deep, tokens: &[Token]) -> bool
    ensures { result ≡ next (is_call room deep.now) tokens.now }
{
    match tokens.split_first() {
        None => false,
        Some((token, _)) => is(token, b".") && 0 < room.brackets && deep.depth < room.depth,
    }
}

fn operator_of(level: Level, text: &[u8]) -> Option<Operator>
    ensures { result ≡ operator_of level text.now }
{
    match level {
        Level::Unary => None,
        Level::Term => {
            if text == b"*".as_slice() {
                Some(Operator::Multiply)
            } else {
                None
            }
        }
        Level::Sum => {
            if text == b"+".as_slice() {
                Some(Operator::Add)
            } else if text == b"-".as_slice() {
                Some(Operator::Subtract)
            } else {
                None
            }
        }
        Level::Comparison => {
            if text == b"==".as_slice() {
                Some(Operator::Equal)
            } else if text == b"!=".as_slice() {
                Some(Operator::Unequal)
            } else if text == b"<".as_slice() {
                Some(Operator::Less)
            } else {
                None
            }
        }
    }
}

/// The operator of a level that a token is.
pub fn operator_in(level: Level, token: &Token) -> Option<Operator>
    ensures { result ≡ operator_in level token.now }
{
    match token.kind {
        TokenKind::Name => None,
        TokenKind::Number => None,
        TokenKind::Quoted => None,
        TokenKind::Keyword => operator_of(level, token.text.bytes()),
        TokenKind::Symbol => operator_of(level, token.text.bytes()),
    }
}

/// Whether the next token joins an expression to one more operand.
pub fn is_join(level: Level, room: Room, left: &Deep, tokens: &[Token]) -> bool
    ensures { result ≡ next (is_join level room left.now) tokens.now }
{
    match tokens.split_first() {
        None => false,
        Some((token, _)) => operator_in(level, token).is_some() && left.depth < room.depth,
    }
}

fn fixed_start(place: Place, room: Room, text: &[u8]) -> Start
    ensures value { result ≡ fixed_start place room text.now }
    ensures brackets { result ≡ Parens → 0 < room.brackets }
    ensures depth { result ≡ Parens → 1 < room.depth }
{
    if text == b"null".as_slice() {
        Start::Null
    } else if text == b"this".as_slice() && in_method(place) {
        Start::This
    } else if text == b"new".as_slice() && 0 < room.brackets {
        Start::New
    } else if text == b"(".as_slice() && may_call(room) {
        Start::Parens
    } else {
        Start::Other
    }
}

/// How an expression without operators begins here.
#[tactic(auto, unfolding(crate::specs::Expressions::start))]
pub fn start(place: Place, room: Room, tokens: &[Token]) -> Start
    ensures value { result ≡ start place room tokens.now }
    ensures brackets { result ≡ Parens → 0 < room.brackets }
    ensures depth { result ≡ Parens → 1 < room.depth }
{
    match tokens.split_first() {
        None => Start::Other,
        Some((token, _)) => match token.kind {
            TokenKind::Name => Start::Name,
            TokenKind::Number => Start::Number,
            TokenKind::Quoted => Start::Quoted,
            TokenKind::Keyword => fixed_start(place, room, token.text.bytes()),
            TokenKind::Symbol => fixed_start(place, room, token.text.bytes()),
        },
    }
}

/// The level of what stands to the right of an operator.
pub fn tighter(level: Level) -> Level
    ensures { result ≡ tighter level }
{
    match level {
        Level::Comparison => Level::Sum,
        Level::Sum => Level::Term,
        Level::Term => Level::Unary,
        Level::Unary => Level::Unary,
    }
}

/// How many operators of a level may stand in a row: one comparison, and as many others as the depth
/// allows.
pub fn most_joins(level: Level, room: Room) -> u32
    ensures { result ≡ most_joins level room }
{
    match level {
        Level::Comparison => 1,
        Level::Sum => room.depth,
        Level::Term => room.depth,
        Level::Unary => 0,
    }
}

fn fixed_statement_start(place: Place, brackets: u32, text: &[u8]) -> StmtStart
    ensures value { result ≡ fixed_statement_start place brackets text.now }
    ensures branch { result ≡ If → 0 < brackets }
    ensures repeated { result ≡ While → 0 < brackets }
{
    if text == b"var".as_slice() {
        StmtStart::Var
    } else if text == b"return".as_slice() && in_method(place) {
        StmtStart::Return
    } else if text == b"if".as_slice() && 0 < brackets {
        StmtStart::If
    } else if text == b"while".as_slice() && 0 < brackets {
        StmtStart::While
    } else if text == b"print".as_slice() && in_item(place) {
        StmtStart::Print
    } else {
        StmtStart::Other
    }
}

/// How a statement begins here.
#[tactic(auto, unfolding(crate::specs::Statements::start))]
pub fn statement_start(place: Place, brackets: u32, tokens: &[Token]) -> StmtStart
    ensures value { result ≡ statement_start place brackets tokens.now }
    ensures branch { result ≡ If → 0 < brackets }
    ensures repeated { result ≡ While → 0 < brackets }
{
    match tokens.split_first() {
        None => StmtStart::Other,
        Some((token, _)) => match token.kind {
            TokenKind::Name => StmtStart::Other,
            TokenKind::Number => StmtStart::Other,
            TokenKind::Quoted => StmtStart::Other,
            TokenKind::Keyword => fixed_statement_start(place, brackets, token.text.bytes()),
            TokenKind::Symbol => fixed_statement_start(place, brackets, token.text.bytes()),
        },
    }
}

/// Whether there is a next token, and the statements go on with it.
pub fn goes_on(tokens: &[Token]) -> bool
    ensures { result ≡ next is_not_end tokens.now }
{
    match tokens.split_first() {
        None => false,
        Some((token, _)) => !is(token, b"}"),
    }
}
