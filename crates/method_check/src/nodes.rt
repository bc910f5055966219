ghost use Rattle.std.specs.Prelude.{◌≡◌, ◌≤◌, length, is_some, option_map, drop};
ghost use Rattle.std.specs.Option.{option_copied};
ghost use Rattle.class_defs.specs.ExpressionRules as spec;
ghost use Rattle.class_defs.specs.ExpressionRules.{null_at, line_at};
ghost use Rattle.class_defs.specs.Rules as rules;
ghost use Rattle.class_defs.specs.Rules.{least_with};
ghost use Rattle.class_defs.specs.Types as types;
ghost use Rattle.class_defs.specs.Types.{class_or_untold};
ghost use Rattle.class_defs.specs.declared.rules.Rule.TheVariants.{T2};
ghost use Rattle.class_defs.specs.declared.expressions.Expr.{out-Expr};
ghost use Rattle.class_defs.specs.declared.expressions.TypeName.TheVariants as type_name;
ghost use Rattle.method_check.specs.Bodies.{sight};

use crate::body::Body;
use crate::kinds::{field_in_sight, field_type, fits, is_part, is_told, type_in_sight};
use crate::least::must;
use class_defs::{
    At, Classes, Expr, ExprType, Method, Name, NamedTypes, Operator, Parameter, Position, Rule,
    RuleFault, class_named, class_type, type_named, word_type,
};

/// The line of an expression's own token.
pub fn line_of(expr: &Expr) -> u32
    ensures { result ≡ line_at (out-Expr expr.now) }
{
    match expr {
        Expr::Literal { value: _, line } => *line,
        Expr::Null { line } => *line,
        Expr::This { line } => *line,
        Expr::Field { name } => name.line,
        Expr::Variable { name } => name.line,
        Expr::New { class, at: _ } => class.line,
        Expr::Parens { inner: _, line } => *line,
        Expr::Negate { operand: _, line } => *line,
        Expr::Binary {
            operator: _,
            left: _,
            right: _,
            line,
        } => *line,
        Expr::Call {
            receiver: _,
            method,
            arguments: _,
        } => method.line,
    }
}

/// Whether an expression is the word `null`.
fn is_null(expr: &Expr) -> bool
    ensures { result ≡ null_at (out-Expr expr.now) }
{
    match expr {
        Expr::Null { line: _ } => true,
        _ => false,
    }
}

fn may_be_this(place: Position) -> bool
    ensures { result ≡ spec.may_be_this place }
{
    match place {
        Position::Receiver => true,
        Position::BesideNull | Position::IntoOwnedField | Position::Value => false,
    }
}

fn may_be_read(place: Position) -> bool
    ensures { result ≡ spec.may_be_read place }
{
    match place {
        Position::Receiver | Position::BesideNull => true,
        Position::IntoOwnedField | Position::Value => false,
    }
}

fn may_be_made(place: Position) -> bool
    ensures { result ≡ spec.may_be_made place }
{
    match place {
        Position::IntoOwnedField => true,
        Position::Receiver | Position::BesideNull | Position::Value => false,
    }
}

/// The place beside an operator, with another expression on the other side.
pub fn beside(operator: Operator, other: &Expr) -> Position
    ensures { result ≡ spec.beside operator (null_at (out-Expr other.now)) }
{
    match operator {
        Operator::Equal | Operator::Unequal => {
            if is_null(other) {
                Position::BesideNull
            } else {
                Position::Value
            }
        }
        Operator::Add | Operator::Subtract | Operator::Multiply | Operator::Less => Position::Value,
    }
}

/// T2: the name is that of a class.
#[tactic(auto, using(crate::proofs::Pieces::least_append))]
pub fn is_class(classes: &Classes, name: &Name, found: &mut Option<RuleFault>)
    requires { length classes.now ≤ 65536 }
    ensures { found.new ≡ least_with found.old (rules.is_class classes.now name.now) }
{
    let declared = class_named(classes, &name.text).is_some();
    must(declared, Rule::T2, name.line, found);
}

/// T2: the word names a type.
pub fn is_word(classes: &Classes, word: &Name, found: &mut Option<RuleFault>)
    requires { length classes.now ≤ 65536 }
    ensures { found.new ≡ least_with found.old (rules.is_type classes.now (type_name.Class word.now)) }
{
    let told = is_told(word_type(classes, word));
    must(told, Rule::T2, word.line, found);
}

/// What `this` breaks.
#[tactic(auto, using(crate::proofs::Pieces::least_append))]
pub fn this_rules(
    body: &Body<'_>,
    locals: &NamedTypes,
    line: u32,
    place: Position,
    found: &mut Option<RuleFault>,
) -> ExprType
    ensures kind { result ≡ class_or_untold body.now.this }
    ensures broken { found.new ≡ least_with found.old (spec.this_rules (sight body.now locals.now) line place) }
{
    let kind = match body.this {
        Some(class) => ExprType::Class(class),
        None => ExprType::Untold,
    };
    must(body.this.is_some(), Rule::T2, line, found);
    let stays = may_be_this(place) || !is_part(&body.schema.classes, kind);
    must(stays, Rule::T7, line, found);
    kind
}

/// What the reading of a field breaks.
#[tactic(auto, using(crate::proofs::Pieces::least_append))]
pub fn field_rules(
    body: &Body<'_>,
    locals: &NamedTypes,
    name: &Name,
    place: Position,
    found: &mut Option<RuleFault>,
) -> ExprType
    ensures kind { result ≡ types.field_type (rules.scope_of (sight body.now locals.now)) name.now.text }
    ensures broken { found.new ≡ least_with found.old (spec.field_rules (sight body.now locals.now) name.now place) }
{
    let declared = field_in_sight(body, name).is_some();
    must(declared, Rule::T2, name.line, found);
    let kind = field_type(body, name);
    let stays = may_be_read(place) || !is_part(&body.schema.classes, kind);
    must(stays, Rule::T6, name.line, found);
    kind
}

/// What the use of a local's, a parameter's or a root's name breaks.
pub fn name_rules(
    body: &Body<'_>,
    locals: &NamedTypes,
    name: &Name,
    found: &mut Option<RuleFault>,
) -> ExprType
    ensures kind { result ≡ types.name_type (rules.scope_of (sight body.now locals.now)) name.now.text }
    ensures broken { found.new ≡ least_with found.old (rules.must (is_some (rules.type_in_sight (sight body.now locals.now) name.now.text)) T2 name.now.line) }
{
    let kind = type_in_sight(body, locals, name);
    must(kind.is_some(), Rule::T2, name.line, found);
    match kind {
        Some(kind) => kind,
        None => ExprType::Untold,
    }
}

/// What the word `at` and the number behind it break.
#[tactic(auto, using(crate::proofs::Pieces::least_append))]
fn at_rules(body: &Body<'_>, locals: &NamedTypes, at: Option<At>, found: &mut Option<RuleFault>)
    ensures { found.new ≡ least_with found.old (spec.at_rules (sight body.now locals.now) at) }
{
    if let Some(at) = at {
        must(body.this.is_none(), Rule::T8, at.line, found);
        let there = at.number < u64::from(body.repos);
        must(there, Rule::T8, at.number_line, found);
    }
}

/// What `new` breaks.
#[tactic(auto, using(crate::proofs::Pieces::least_append))]
pub fn new_rules(
    body: &Body<'_>,
    locals: &NamedTypes,
    class: &Name,
    at: Option<At>,
    place: Position,
    found: &mut Option<RuleFault>,
) -> ExprType
    ensures kind { result ≡ class_or_untold (types.class_named body.now.schema.now.classes class.now.text) }
    ensures broken { found.new ≡ least_with found.old (spec.new_rules (sight body.now locals.now) class.now at place) }
{
    is_class(&body.schema.classes, class, found);
    let kind = class_type(&body.schema.classes, class);
    let stays = may_be_made(place) || !is_part(&body.schema.classes, kind);
    must(stays, Rule::T8, class.line, found);
    at_rules(body, locals, at, found);
    kind
}

/// What the method of a call breaks.
pub fn called_rules(
    receiver: ExprType,
    method: Option<&Method>,
    name: &Name,
    arguments: usize,
    found: &mut Option<RuleFault>,
)
    ensures { found.new ≡ least_with found.old (spec.called_rules receiver (option_copied method.entry) name.now arguments) }
{
    match method {
        Some(method) => {
            let agree = method.parameters.len() == arguments;
            must(agree, Rule::T4, name.line, found);
        }
        None => must(!is_told(receiver), Rule::T2, name.line, found),
    }
}

/// What an argument breaks beside its parameter.
pub fn argument_fits(
    classes: &Classes,
    parameter: Option<&Parameter>,
    given: ExprType,
    line: u32,
    found: &mut Option<RuleFault>,
)
    requires { length classes.now ≤ 65536 }
    ensures { found.new ≡ least_with found.old (spec.argument_fits classes.now (option_copied parameter.entry) given line) }
{
    if let Some(parameter) = parameter {
        let declared = type_named(classes, &parameter.type_name);
        must(fits(declared, given), Rule::T3, line, found);
    }
}

/// The parameters of the method that is called.
pub fn parameters_of<'a>(method: Option<&'a Method>) -> &'a [Parameter]
    ensures { result.now ≡ spec.parameters_of (option_copied method.entry) }
{
    match method {
        Some(method) => method.parameters.as_slice(),
        None => &[],
    }
}

/// The parameters behind the first one.
pub fn behind_first(parameters: &[Parameter]) -> &[Parameter]
    ensures { result.now ≡ drop 1 parameters.now }
{
    match parameters.split_first() {
        Some((_, rest)) => rest,
        None => parameters,
    }
}

/// The type of what a method answers.
pub fn result_type(classes: &Classes, method: Option<&Method>) -> ExprType
    requires { length classes.now ≤ 65536 }
    ensures { result ≡ types.typed classes.now (option_map (λ m. m.result) (option_copied method.entry)) }
{
    match method {
        Some(method) => type_named(classes, &method.result),
        None => ExprType::Untold,
    }
}
