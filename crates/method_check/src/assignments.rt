ghost use Rattle.std.specs.Prelude.{◌≡◌, ◌≤◌, length, OnOk, [], ◌∷◌, ◌++◌};
ghost use Rattle.std.specs.Option.{option_copied};
ghost use Rattle.class_defs.specs.Rules as rules;
ghost use Rattle.class_defs.specs.Rules.{least_with};
ghost use Rattle.class_defs.specs.StatementRules as spec;
ghost use Rattle.class_defs.specs.Types as types;
ghost use Rattle.class_defs.specs.declared.expressions.Expr.{out-Expr};
ghost use Rattle.class_defs.specs.declared.expressions.TypeName.TheVariants as type_name;
ghost use Rattle.method_check.specs.Bodies.{sight};

use crate::body::Body;
use crate::judge::judge;
use crate::kinds::{
    field_in_sight, field_type, fits, is_number, is_part, is_printable, is_root_type, local_named,
    root_named,
};
use crate::least::must;
use crate::nodes::{is_word, line_of};
use class_defs::{
    Classes, Expr, ExprType, Name, NamedType, NamedTypes, Position, RootDeclaration, Rule,
    RuleFault, TypeName, class_type, type_named, word_type,
};
use thor_value::{NoMemory, TryCopy};

/// What an expression breaks whose value stands where a type is declared.
#[tactic(auto, using(crate::proofs::Pieces::least_append))]
pub fn must_fit(
    body: &Body<'_>,
    locals: &NamedTypes,
    declared: ExprType,
    value: &Expr,
    found: &mut Option<RuleFault>,
)
    ensures { found.new ≡ least_with found.old (spec.must_fit (sight body.now locals.now) declared value.now) }
{
    let kind = judge(body, locals, value, Position::Value, found);
    must(fits(declared, kind), Rule::T3, line_of(value), found);
}

/// What an expression breaks that gives a condition.
#[tactic(auto, using(crate::proofs::Pieces::least_append))]
pub fn must_be_number(
    body: &Body<'_>,
    locals: &NamedTypes,
    value: &Expr,
    found: &mut Option<RuleFault>,
)
    ensures { found.new ≡ least_with found.old (spec.must_be_number (sight body.now locals.now) value.now) }
{
    let kind = judge(body, locals, value, Position::Value, found);
    must(is_number(kind), Rule::T3, line_of(value), found);
}

/// What an expression breaks that is printed.
#[tactic(auto, using(crate::proofs::Pieces::least_append))]
pub fn must_be_printable(
    body: &Body<'_>,
    locals: &NamedTypes,
    value: &Expr,
    found: &mut Option<RuleFault>,
)
    ensures { found.new ≡ least_with found.old (spec.must_be_printable (sight body.now locals.now) value.now) }
{
    let kind = judge(body, locals, value, Position::Value, found);
    must(is_printable(kind), Rule::T3, line_of(value), found);
}

/// T2 and T5 of a word: it names a type, and not a part class.
#[tactic(auto, using(crate::proofs::Pieces::least_append))]
fn is_free_word(classes: &Classes, word: &Name, found: &mut Option<RuleFault>)
    requires { length classes.now ≤ 65536 }
    ensures { found.new ≡ least_with found.old (rules.is_free_type classes.now (type_name.Class word.now)) }
{
    is_word(classes, word, found);
    let free = !is_part(classes, word_type(classes, word));
    must(free, Rule::T5, word.line, found);
}

/// T2 and T5 of the word that a root is made of.
#[tactic(auto, using(crate::proofs::Pieces::least_append))]
pub fn is_root_class(classes: &Classes, word: &Name, found: &mut Option<RuleFault>)
    requires { length classes.now ≤ 65536 }
    ensures { found.new ≡ least_with found.old (rules.is_root_class classes.now word.now) }
{
    is_word(classes, word, found);
    let free = is_root_type(classes, word_type(classes, word));
    must(free, Rule::T5, word.line, found);
}

/// T2 and T5 of the word of a parameter's, a result's or a local's type.
pub fn is_free_type(classes: &Classes, type_name: &TypeName, found: &mut Option<RuleFault>)
    requires { length classes.now ≤ 65536 }
    ensures { found.new ≡ least_with found.old (rules.is_free_type classes.now type_name.now) }
{
    match type_name {
        TypeName::Int { line: _ } => {}
        TypeName::Class { name } => is_free_word(classes, name, found),
    }
}

/// What a `var` statement breaks.
#[tactic(auto, using(crate::proofs::Pieces::least_append))]
pub fn var_rules(
    body: &Body<'_>,
    locals: &NamedTypes,
    type_name: &TypeName,
    line: u32,
    value: &Expr,
    found: &mut Option<RuleFault>,
)
    ensures { found.new ≡ least_with found.old (spec.var_rules (sight body.now locals.now) type_name.now line value.now) }
{
    is_free_type(&body.schema.classes, type_name, found);
    let kind = judge(body, locals, value, Position::Value, found);
    let declared = type_named(&body.schema.classes, type_name);
    must(fits(declared, kind), Rule::T3, line, found);
}

/// What the left side of an assignment by name breaks.
fn assigned_fits(
    local: Option<&NamedType>,
    root: Option<&RootDeclaration>,
    name: &Name,
    given: ExprType,
    line: u32,
    found: &mut Option<RuleFault>,
)
    ensures { found.new ≡ least_with found.old (spec.assigned_fits (option_copied local.entry) (option_copied root.entry) name.now given line) }
{
    match (local, root) {
        (Some(local), _) => must(fits(local.kind, given), Rule::T3, line, found),
        (None, Some(_)) => must(false, Rule::T3, name.line, found),
        (None, None) => must(false, Rule::T2, name.line, found),
    }
}

/// What an assignment by name breaks.
#[tactic(auto, using(crate::proofs::Pieces::least_append))]
pub fn assign_rules(
    body: &Body<'_>,
    locals: &NamedTypes,
    name: &Name,
    line: u32,
    value: &Expr,
    found: &mut Option<RuleFault>,
)
    ensures { found.new ≡ least_with found.old (spec.assign_rules (sight body.now locals.now) name.now line value.now) }
{
    let kind = judge(body, locals, value, Position::Value, found);
    let local = local_named(locals, name);
    let root = root_named(body, locals, name);
    assigned_fits(local, root, name, kind, line, found);
}

/// Whether an owned field may be given this: `null`, or `new` of its class.
fn gives_part(classes: &Classes, kind: ExprType, value: &Expr) -> bool
    requires { length classes.now ≤ 65536 }
    ensures { result ≡ spec.gives_part classes.now kind (out-Expr value.now) }
{
    match value {
        Expr::Null { line: _ } => true,
        Expr::New { class, at: _ } => fits(kind, class_type(classes, class)),
        _ => false,
    }
}

/// The place right of an assignment to a field.
fn place_for(owned: bool) -> Position
    ensures { result ≡ spec.place_for owned }
{
    if owned {
        Position::IntoOwnedField
    } else {
        Position::Value
    }
}

/// What an assignment to a field breaks.
#[tactic(auto, using(crate::proofs::Pieces::least_append))]
pub fn field_assign_rules(
    body: &Body<'_>,
    locals: &NamedTypes,
    field: &Name,
    line: u32,
    value: &Expr,
    found: &mut Option<RuleFault>,
)
    ensures { found.new ≡ least_with found.old (spec.field_assign_rules (sight body.now locals.now) field.now line value.now) }
{
    let classes = &body.schema.classes;
    let declared = field_in_sight(body, field).is_some();
    must(declared, Rule::T2, field.line, found);
    let kind = field_type(body, field);
    let owned = is_part(classes, kind);
    let gives = !owned || gives_part(classes, kind, value);
    must(gives, Rule::T6, field.line, found);
    let given = judge(body, locals, value, place_for(owned), found);
    must(fits(kind, given), Rule::T3, line, found);
}

/// A local is in sight from behind its `var` statement on.
pub fn declare(
    body: &Body<'_>,
    locals: &mut NamedTypes,
    type_name: &TypeName,
    name: &Name,
) -> Result<(), NoMemory>
    ensures { OnOk result (locals.new ≡ locals.old ++ record { name = name.now.text; kind = types.type_named body.now.schema.now.classes type_name.now } ∷ []) }
{
    let kind = type_named(&body.schema.classes, type_name);
    let name = name.text;
    locals.push(NamedType { name, kind })
}
