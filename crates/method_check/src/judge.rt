ghost use Rattle.std.specs.Prelude.{◌≡◌, map};
ghost use Rattle.std.specs.Option.{option_copied};
ghost use Rattle.class_defs.specs.ExpressionRules.{judged, argument_rules, arguments_rules};
ghost use Rattle.class_defs.specs.Rules.{least_with};
ghost use Rattle.method_check.specs.Bodies.{sight};

use crate::body::Body;
use crate::kinds::{is_number, method_called, takes};
use crate::least::must;
use crate::nodes::{
    argument_fits, behind_first, beside, called_rules, field_rules, line_of, name_rules, new_rules,
    parameters_of, result_type, this_rules,
};
use class_defs::{
    Expr, ExprType, Exprs, NamedTypes, Parameter, Position, Rule, RuleFault, literal_type,
};

/// Finds the rules that an expression breaks where it stands, and gives its type.
#[cycle(judge)]
#[tactic(auto, using(crate::proofs::Pieces::least_append, crate::proofs::Pieces::same_count, crate::proofs::Forms::null_judged, crate::proofs::Forms::judged_negate, crate::proofs::Forms::judged_binary, crate::proofs::Forms::judged_call), unfolding(class_defs::specs::ExpressionRules::judged))]
pub fn judge(
    body: &Body<'_>,
    locals: &NamedTypes,
    expr: &Expr,
    place: Position,
    found: &mut Option<RuleFault>,
) -> ExprType
    ensures kind { result ≡ (judged (sight body.now locals.now) expr.now).kind }
    ensures broken { found.new ≡ least_with found.old ((judged (sight body.now locals.now) expr.now).broken place) }
{
    match expr {
        Expr::Literal { value, line: _ } => literal_type(*value),
        Expr::Null { line: _ } => ExprType::Null,
        Expr::This { line } => this_rules(body, locals, *line, place, found),
        Expr::Field { name } => field_rules(body, locals, name, place, found),
        Expr::Variable { name } => name_rules(body, locals, name, found),
        Expr::New { class, at } => new_rules(body, locals, class, *at, place, found),
        Expr::Parens { inner, line: _ } => judge(body, locals, inner.get(), Position::Value, found),
        Expr::Negate { operand, line } => {
            let kind = judge(body, locals, operand.get(), Position::Value, found);
            must(is_number(kind), Rule::T3, *line, found);
            ExprType::Int
        }
        Expr::Binary {
            operator,
            left,
            right,
            line,
        } => {
            let left_place = beside(*operator, right.get());
            let left_kind = judge(body, locals, left.get(), left_place, found);
            let right_place = beside(*operator, left.get());
            let right_kind = judge(body, locals, right.get(), right_place, found);
            let agree = takes(&body.schema.classes, *operator, left_kind, right_kind);
            must(agree, Rule::T3, *line, found);
            ExprType::Int
        }
        Expr::Call {
            receiver,
            method: name,
            arguments,
        } => {
            let kind = judge(body, locals, receiver.get(), Position::Receiver, found);
            let method = method_called(&body.schema.classes, kind, name);
            called_rules(kind, method, name, arguments.len(), found);
            judge_arguments(body, locals, parameters_of(method), arguments, found);
            result_type(&body.schema.classes, method)
        }
    }
}

/// Finds the rules that the arguments of a call break.
#[cycle(judge)]
#[tactic(auto, using(crate::proofs::Pieces::least_append))]
fn judge_arguments(
    body: &Body<'_>,
    locals: &NamedTypes,
    parameters: &[Parameter],
    arguments: &Exprs,
    found: &mut Option<RuleFault>,
)
    ensures { found.new ≡ least_with found.old (arguments_rules body.now.schema.now.classes parameters.now (map (judged (sight body.now locals.now)) arguments.now)) }
{
    let mut rest = parameters;
    for argument in arguments.as_slice() {
        judge_argument(body, locals, rest.first(), argument, found);
        rest = behind_first(rest);
    }
}

/// Finds the rules that an argument breaks beside its parameter.
#[cycle(judge)]
#[tactic(auto, using(crate::proofs::Pieces::least_append, crate::proofs::Forms::line_judged))]
fn judge_argument(
    body: &Body<'_>,
    locals: &NamedTypes,
    parameter: Option<&Parameter>,
    argument: &Expr,
    found: &mut Option<RuleFault>,
)
    ensures { found.new ≡ least_with found.old (argument_rules body.now.schema.now.classes (option_copied parameter.entry) (judged (sight body.now locals.now) argument.now)) }
{
    let given = judge(body, locals, argument, Position::Value, found);
    argument_fits(
        &body.schema.classes,
        parameter,
        given,
        line_of(argument),
        found,
    );
}
