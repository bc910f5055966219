//! Classes and roots.

ghost use Rattle.std.specs.Prelude.{◌≡◌};
ghost use Rattle.method_parse.specs.Reader.{Gives, next};
ghost use Rattle.method_parse.specs.Setups.{begins_type, begins_class, field, more_fields, fields, parameter, more_parameters, other_parameters, some_parameters, listed, parameters, method, more_methods, methods, kind, class, more_classes, classes, root, root_named, root_of_class, more_roots, roots, setup};

use crate::error::ParseError;
use crate::expressions::at;
use crate::statements::block_in;
use crate::take::{is, is_name, name, next_is, type_word, word};
use class_defs::{
    Class, ClassKind, Classes, Declarations, Field, Fields, Method, Methods, Name, Parameter,
    Parameters, Place, WrittenRoot, WrittenRoots,
};
use script_text::Token;
use std::alloc::Global;

/// How many brackets may open inside one another.
pub const MAX_NESTING: u32 = 64;

/// How many fields a class may have, how many methods, and how many parameters a method behind the first.
const MAX_FIELDS: usize = 32;

const MAX_METHODS: usize = 64;

const MORE_PARAMETERS: usize = 7;

/// How many classes there may be, and how many roots.
const MAX_CLASSES: usize = 256;

const MAX_ROOTS: usize = 256;

/// Whether the next token may be a type.
pub fn next_begins_type(tokens: &[Token]) -> bool
    ensures { result ≡ next begins_type tokens.now }
{
    match tokens.split_first() {
        None => false,
        Some((token, _)) => is(token, b"int") || is_name(token),
    }
}

/// Whether the next token begins a class.
fn next_begins_class(tokens: &[Token]) -> bool
    ensures { result ≡ next begins_class tokens.now }
{
    match tokens.split_first() {
        None => false,
        Some((token, _)) => is(token, b"free") || is(token, b"part"),
    }
}

#[tactic(auto, unfolding(crate::specs::Setups::field))]
fn field(tokens: &[Token]) -> Result<(Field, &[Token]), ParseError>
    ensures { Gives (λ x. (x.0, x.1.now)) result (field tokens.now) }
{
    let (type_name, rest) = match type_word(tokens) {
        Ok(read) => read,
        Err(error) => return Err(error),
    };
    let (name, rest) = match name(rest) {
        Ok(read) => read,
        Err(error) => return Err(error),
    };
    let (_, rest) = word(rest, b";")?;
    Ok((Field { type_name, name }, rest))
}

/// One more field.
#[tactic(auto, unfolding(crate::specs::Setups::more_fields))]
fn more_fields(fields: Fields, tokens: &[Token]) -> Result<(Fields, &[Token]), ParseError>
    ensures { Gives (λ x. (x.0, x.1.now)) result (more_fields fields tokens.now) }
{
    let mut fields = fields;
    let (one, rest) = match field(tokens) {
        Ok(read) => read,
        Err(error) => return Err(error),
    };
    fields.push(one)?;
    Ok((fields, rest))
}

fn fields(alloc: Global, tokens: &[Token]) -> Result<(Fields, &[Token]), ParseError>
    ensures { Gives (λ x. (x.0, x.1.now)) result (fields tokens.now) }
{
    let mut read = Fields::new(alloc);
    let mut rest = tokens;
    for _turn in 0..MAX_FIELDS {
        if !next_begins_type(rest) {
            return Ok((read, rest));
        }
        let (more, after) = more_fields(read, rest)?;
        read = more;
        rest = after;
    }
    Ok((read, rest))
}

#[tactic(auto, unfolding(crate::specs::Setups::parameter))]
fn parameter(tokens: &[Token]) -> Result<(Parameter, &[Token]), ParseError>
    ensures { Gives (λ x. (x.0, x.1.now)) result (parameter tokens.now) }
{
    let (type_name, rest) = match type_word(tokens) {
        Ok(read) => read,
        Err(error) => return Err(error),
    };
    let (name, rest) = match name(rest) {
        Ok(read) => read,
        Err(error) => return Err(error),
    };
    Ok((Parameter { type_name, name }, rest))
}

/// A comma, and one more parameter.
#[tactic(auto, unfolding(crate::specs::Setups::more_parameters))]
fn more_parameters(
    parameters: Parameters,
    tokens: &[Token],
) -> Result<(Parameters, &[Token]), ParseError>
    ensures { Gives (λ x. (x.0, x.1.now)) result (more_parameters parameters tokens.now) }
{
    let mut parameters = parameters;
    let (_, rest) = word(tokens, b",")?;
    let (one, rest) = match parameter(rest) {
        Ok(read) => read,
        Err(error) => return Err(error),
    };
    parameters.push(one)?;
    Ok((parameters, rest))
}

/// The parameters behind the first: a method has at most 8.
fn other_parameters(
    first: Parameters,
    tokens: &[Token],
) -> Result<(Parameters, &[Token]), ParseError>
    ensures { Gives (λ x. (x.0, x.1.now)) result (other_parameters first tokens.now) }
{
    let mut read = first;
    let mut rest = tokens;
    for _turn in 0..MORE_PARAMETERS {
        if !next_is(rest, b",") {
            return Ok((read, rest));
        }
        let (more, after) = more_parameters(read, rest)?;
        read = more;
        rest = after;
    }
    Ok((read, rest))
}

#[tactic(auto, unfolding(crate::specs::Setups::some_parameters))]
fn some_parameters(alloc: Global, tokens: &[Token]) -> Result<(Parameters, &[Token]), ParseError>
    ensures { Gives (λ x. (x.0, x.1.now)) result (some_parameters tokens.now) }
{
    let (one, rest) = match parameter(tokens) {
        Ok(read) => read,
        Err(error) => return Err(error),
    };
    let mut first = Parameters::new(alloc);
    first.push(one)?;
    other_parameters(first, rest)
}

/// The parameters of a method, up to the `)`.
#[tactic(auto, unfolding(crate::specs::Setups::listed))]
fn listed(alloc: Global, tokens: &[Token]) -> Result<(Parameters, &[Token]), ParseError>
    ensures { Gives (λ x. (x.0, x.1.now)) result (listed tokens.now) }
{
    if next_is(tokens, b")") {
        return Ok((Parameters::new(alloc), tokens));
    }
    some_parameters(alloc, tokens)
}

/// The parameters of a method, with their parentheses.
#[tactic(auto, unfolding(crate::specs::Setups::parameters))]
fn parameters(alloc: Global, tokens: &[Token]) -> Result<(Parameters, &[Token]), ParseError>
    ensures { Gives (λ x. (x.0, x.1.now)) result (parameters tokens.now) }
{
    let (_, rest) = word(tokens, b"(")?;
    let (read, rest) = listed(alloc, rest)?;
    let (_, rest) = word(rest, b")")?;
    Ok((read, rest))
}

#[tactic(auto, unfolding(crate::specs::Setups::method))]
fn method(alloc: Global, tokens: &[Token]) -> Result<(Method, &[Token]), ParseError>
    ensures { Gives (λ x. (x.0, x.1.now)) result (method tokens.now) }
{
    let (_, rest) = word(tokens, b"method")?;
    let (result, rest) = match type_word(rest) {
        Ok(read) => read,
        Err(error) => return Err(error),
    };
    let (name, rest) = match name(rest) {
        Ok(read) => read,
        Err(error) => return Err(error),
    };
    let (parameters, rest) = parameters(alloc, rest)?;
    let (body, rest) = block_in(alloc, Place::Method, MAX_NESTING, rest)?;
    let method = Method {
        result,
        name,
        parameters,
        body,
    };
    Ok((method, rest))
}

/// One more method.
#[tactic(auto, unfolding(crate::specs::Setups::more_methods))]
fn more_methods(
    alloc: Global,
    methods: Methods,
    tokens: &[Token],
) -> Result<(Methods, &[Token]), ParseError>
    ensures { Gives (λ x. (x.0, x.1.now)) result (more_methods methods tokens.now) }
{
    let mut methods = methods;
    let (one, rest) = method(alloc, tokens)?;
    methods.push(one)?;
    Ok((methods, rest))
}

/// The methods of a class, up to the first token that begins none; at most 64.
pub fn methods(alloc: Global, tokens: &[Token]) -> Result<(Methods, &[Token]), ParseError>
    ensures { Gives (λ x. (x.0, x.1.now)) result (methods tokens.now) }
{
    let mut read = Methods::new(alloc);
    let mut rest = tokens;
    for _turn in 0..MAX_METHODS {
        if !next_is(rest, b"method") {
            return Ok((read, rest));
        }
        let (more, after) = more_methods(alloc, read, rest)?;
        read = more;
        rest = after;
    }
    Ok((read, rest))
}

#[tactic(auto, unfolding(crate::specs::Setups::kind))]
fn kind(tokens: &[Token]) -> Result<(ClassKind, &[Token]), ParseError>
    ensures { Gives (λ x. (x.0, x.1.now)) result (kind tokens.now) }
{
    if next_is(tokens, b"free") {
        let (_, rest) = word(tokens, b"free")?;
        return Ok((ClassKind::Free, rest));
    }
    let (_, rest) = word(tokens, b"part")?;
    Ok((ClassKind::Part, rest))
}

#[tactic(auto, unfolding(crate::specs::Setups::class))]
fn class(alloc: Global, tokens: &[Token]) -> Result<(Class, &[Token]), ParseError>
    ensures { Gives (λ x. (x.0, x.1.now)) result (class tokens.now) }
{
    let (kind, rest) = kind(tokens)?;
    let (_, rest) = word(rest, b"class")?;
    let (name, rest) = match name(rest) {
        Ok(read) => read,
        Err(error) => return Err(error),
    };
    let (_, rest) = word(rest, b"{")?;
    let (fields, rest) = fields(alloc, rest)?;
    let (methods, rest) = methods(alloc, rest)?;
    let (_, rest) = word(rest, b"}")?;
    let class = Class {
        kind,
        name,
        fields,
        methods,
    };
    Ok((class, rest))
}

/// One more class.
#[tactic(auto, unfolding(crate::specs::Setups::more_classes))]
fn more_classes(
    alloc: Global,
    classes: Classes,
    tokens: &[Token],
) -> Result<(Classes, &[Token]), ParseError>
    ensures { Gives (λ x. (x.0, x.1.now)) result (more_classes classes tokens.now) }
{
    let mut classes = classes;
    let (one, rest) = class(alloc, tokens)?;
    classes.push(one)?;
    Ok((classes, rest))
}

fn classes(alloc: Global, tokens: &[Token]) -> Result<(Classes, &[Token]), ParseError>
    ensures { Gives (λ x. (x.0, x.1.now)) result (classes tokens.now) }
{
    let mut read = Classes::new(alloc);
    let mut rest = tokens;
    for _turn in 0..MAX_CLASSES {
        if !next_begins_class(rest) {
            return Ok((read, rest));
        }
        let (more, after) = more_classes(alloc, read, rest)?;
        read = more;
        rest = after;
    }
    Ok((read, rest))
}

#[tactic(auto, unfolding(crate::specs::Setups::root, crate::specs::Setups::root_named, crate::specs::Setups::root_of_class))]
fn root(tokens: &[Token]) -> Result<(WrittenRoot, &[Token]), ParseError>
    ensures { Gives (λ x. (x.0, x.1.now)) result (root tokens.now) }
{
    let (_, rest) = word(tokens, b"root")?;
    let (called, rest) = match name(rest) {
        Ok(read) => read,
        Err(error) => return Err(error),
    };
    root_named(called, rest)
}

/// What stands behind the name of a root.
#[tactic(auto, unfolding(crate::specs::Setups::root_named))]
fn root_named(called: Name, tokens: &[Token]) -> Result<(WrittenRoot, &[Token]), ParseError>
    ensures { Gives (λ x. (x.0, x.1.now)) result (root_named called tokens.now) }
{
    let (_, rest) = word(tokens, b"=")?;
    let (_, rest) = word(rest, b"new")?;
    let (class, rest) = match name(rest) {
        Ok(read) => read,
        Err(error) => return Err(error),
    };
    root_of_class(called, class, rest)
}

/// What stands behind the class of a root.
#[tactic(auto, unfolding(crate::specs::Setups::root_of_class))]
fn root_of_class(
    called: Name,
    class: Name,
    tokens: &[Token],
) -> Result<(WrittenRoot, &[Token]), ParseError>
    ensures { Gives (λ x. (x.0, x.1.now)) result (root_of_class called class tokens.now) }
{
    let (_, rest) = word(tokens, b"(")?;
    let (_, rest) = word(rest, b")")?;
    let (at, rest) = at(rest)?;
    let (_, rest) = word(rest, b";")?;
    let root = WrittenRoot {
        name: called,
        class,
        at,
    };
    Ok((root, rest))
}

/// One more root.
#[tactic(auto, unfolding(crate::specs::Setups::more_roots))]
fn more_roots(roots: WrittenRoots, tokens: &[Token]) -> Result<(WrittenRoots, &[Token]), ParseError>
    ensures { Gives (λ x. (x.0, x.1.now)) result (more_roots roots tokens.now) }
{
    let mut roots = roots;
    let (one, rest) = match root(tokens) {
        Ok(read) => read,
        Err(error) => return Err(error),
    };
    roots.push(one)?;
    Ok((roots, rest))
}

fn roots(alloc: Global, tokens: &[Token]) -> Result<(WrittenRoots, &[Token]), ParseError>
    ensures { Gives (λ x. (x.0, x.1.now)) result (roots tokens.now) }
{
    let mut read = WrittenRoots::new(alloc);
    let mut rest = tokens;
    for _turn in 0..MAX_ROOTS {
        if !next_is(rest, b"root") {
            return Ok((read, rest));
        }
        let (more, after) = more_roots(read, rest)?;
        read = more;
        rest = after;
    }
    Ok((read, rest))
}

/// The classes and roots at the front of the tokens.
#[tactic(auto, unfolding(crate::specs::Setups::setup))]
pub fn setup(alloc: Global, tokens: &[Token]) -> Result<(Declarations, &[Token]), ParseError>
    ensures { Gives (λ x. (x.0, x.1.now)) result (setup tokens.now) }
{
    let (classes, rest) = classes(alloc, tokens)?;
    let (roots, rest) = roots(alloc, rest)?;
    Ok((Declarations { classes, roots }, rest))
}
