//! Whether two trees of the language are equal, lines aside.

ghost use Rattle.std.specs.Prelude.{◌≡◌, ◌↔◌, IsTrue, map};
ghost use Rattle.class_defs.specs.LinesAside.{at_on_line_1, block_on_line_1, expr_on_line_1, stmt_on_line_1};
ghost use Rattle.class_defs.specs.UpgradeLinesAside.{tf_on_line_1};

use crate::equality::Same;
use class_defs::{
    At, Block, ClassUpgrade, Expr, Exprs, FieldUpgrade, Method, Name, Parameter, Stmt, Tf,
    TypeName, Upgrade,
};
use thor_value::Sequence;

/// Trees that can be told apart, lines aside.
pub trait SameAside {
    /// The tree as if all its text stood on line 1.
    ghost on_line_1: { Self → Self };

    /// Whether the two are equal, lines aside.
    fn same_aside(&self, other: &Self) -> bool
        ensures { IsTrue result ↔ (on_line_1 self.now ≡ on_line_1 other.now) };
}

impl<T: SameAside> SameAside for Sequence<T> {
    ghost on_line_1 = { λ trees. map T.on_line_1 trees };

    fn same_aside(&self, other: &Sequence<T>) -> bool {
        let (some, others) = (self.as_slice(), other.as_slice());
        if some.len() != others.len() {
            return false;
        }
        for place in 0..some.len() {
            if !some[place].same_aside(&others[place]) {
                return false;
            }
        }
        true
    }
}

impl SameAside for Name {
    ghost use Rattle.class_defs.specs.LinesAside.{name_on_line_1};

    ghost on_line_1 = { name_on_line_1 };

    fn same_aside(&self, other: &Name) -> bool {
        self.text.same(&other.text)
    }
}

impl SameAside for TypeName {
    ghost use Rattle.class_defs.specs.LinesAside.{type_on_line_1};

    ghost on_line_1 = { type_on_line_1 };

    fn same_aside(&self, other: &TypeName) -> bool {
        match (self, other) {
            (TypeName::Int { line: _ }, TypeName::Int { line: _ }) => true,
            (TypeName::Class { name }, TypeName::Class { name: other }) => name.same_aside(other),
            (_, _) => false,
        }
    }
}

/// Whether two new objects lie in the same repository.
fn same_at(some: &Option<At>, other: &Option<At>) -> bool
    ensures { IsTrue result ↔ (at_on_line_1 some.now ≡ at_on_line_1 other.now) }
{
    match (some, other) {
        (None, None) => true,
        (Some(some), Some(other)) => some.number == other.number,
        (_, _) => false,
    }
}

#[cycle(same_expr)]
fn same_exprs(some: &Exprs, other: &Exprs) -> bool
    ensures { IsTrue result ↔ (map expr_on_line_1 some.now ≡ map expr_on_line_1 other.now) }
{
    let (some, others) = (some.as_slice(), other.as_slice());
    if some.len() != others.len() {
        return false;
    }
    for place in 0..some.len() {
        if !same_expr(&some[place], &others[place]) {
            return false;
        }
    }
    true
}

#[cycle(same_expr)]
fn same_expr(some: &Expr, other: &Expr) -> bool
    ensures { IsTrue result ↔ (expr_on_line_1 some.now ≡ expr_on_line_1 other.now) }
{
    match some {
        Expr::Literal { value, line: _ } => match other {
            Expr::Literal {
                value: other,
                line: _,
            } => value.same(other),
            _ => false,
        },
        Expr::Null { line: _ } => match other {
            Expr::Null { line: _ } => true,
            _ => false,
        },
        Expr::This { line: _ } => match other {
            Expr::This { line: _ } => true,
            _ => false,
        },
        Expr::Field { name } => match other {
            Expr::Field { name: other } => name.same_aside(other),
            _ => false,
        },
        Expr::Variable { name } => match other {
            Expr::Variable { name: other } => name.same_aside(other),
            _ => false,
        },
        Expr::New { class, at } => match other {
            Expr::New {
                class: other,
                at: place,
            } => {
                if !class.same_aside(other) {
                    return false;
                }
                same_at(at, place)
            }
            _ => false,
        },
        Expr::Parens { inner, line: _ } => match other {
            Expr::Parens {
                inner: other,
                line: _,
            } => same_expr(inner.get(), other.get()),
            _ => false,
        },
        Expr::Negate { operand, line: _ } => match other {
            Expr::Negate {
                operand: other,
                line: _,
            } => same_expr(operand.get(), other.get()),
            _ => false,
        },
        Expr::Binary {
            operator,
            left,
            right,
            line: _,
        } => match other {
            Expr::Binary {
                operator: other,
                left: first,
                right: second,
                line: _,
            } => {
                if !operator.same(other) {
                    return false;
                }
                if !same_expr(left.get(), first.get()) {
                    return false;
                }
                same_expr(right.get(), second.get())
            }
            _ => false,
        },
        Expr::Call {
            receiver,
            method,
            arguments,
        } => match other {
            Expr::Call {
                receiver: other,
                method: name,
                arguments: values,
            } => {
                if !method.same_aside(name) {
                    return false;
                }
                if !same_expr(receiver.get(), other.get()) {
                    return false;
                }
                same_exprs(arguments, values)
            }
            _ => false,
        },
    }
}

#[cycle(same_stmt)]
fn same_block(some: &Block, other: &Block) -> bool
    ensures { IsTrue result ↔ (block_on_line_1 some.now ≡ block_on_line_1 other.now) }
{
    let (some, others) = (some.as_slice(), other.as_slice());
    if some.len() != others.len() {
        return false;
    }
    for place in 0..some.len() {
        if !same_stmt(&some[place], &others[place]) {
            return false;
        }
    }
    true
}

#[cycle(same_stmt)]
fn same_stmt(some: &Stmt, other: &Stmt) -> bool
    ensures { IsTrue result ↔ (stmt_on_line_1 some.now ≡ stmt_on_line_1 other.now) }
{
    match some {
        Stmt::Var {
            type_name,
            name,
            line: _,
            value,
        } => match other {
            Stmt::Var {
                type_name: kind,
                name: other,
                line: _,
                value: second,
            } => {
                if !type_name.same_aside(kind) {
                    return false;
                }
                if !name.same_aside(other) {
                    return false;
                }
                same_expr(value, second)
            }
            _ => false,
        },
        Stmt::Assign {
            name,
            line: _,
            value,
        } => match other {
            Stmt::Assign {
                name: other,
                line: _,
                value: second,
            } => {
                if !name.same_aside(other) {
                    return false;
                }
                same_expr(value, second)
            }
            _ => false,
        },
        Stmt::FieldAssign {
            field,
            line: _,
            value,
        } => match other {
            Stmt::FieldAssign {
                field: other,
                line: _,
                value: second,
            } => {
                if !field.same_aside(other) {
                    return false;
                }
                same_expr(value, second)
            }
            _ => false,
        },
        Stmt::Return { value } => match other {
            Stmt::Return { value: other } => same_expr(value, other),
            _ => false,
        },
        Stmt::If { condition, then } => match other {
            Stmt::If {
                condition: other,
                then: block,
            } => {
                if !same_expr(condition, other) {
                    return false;
                }
                same_block(then, block)
            }
            _ => false,
        },
        Stmt::IfElse {
            condition,
            then,
            otherwise,
        } => match other {
            Stmt::IfElse {
                condition: other,
                then: first,
                otherwise: second,
            } => {
                if !same_expr(condition, other) {
                    return false;
                }
                if !same_block(then, first) {
                    return false;
                }
                same_block(otherwise, second)
            }
            _ => false,
        },
        Stmt::While { condition, body } => match other {
            Stmt::While {
                condition: other,
                body: block,
            } => {
                if !same_expr(condition, other) {
                    return false;
                }
                same_block(body, block)
            }
            _ => false,
        },
        Stmt::Print { value } => match other {
            Stmt::Print { value: other } => same_expr(value, other),
            _ => false,
        },
        Stmt::Evaluate { value } => match other {
            Stmt::Evaluate { value: other } => same_expr(value, other),
            _ => false,
        },
    }
}

#[cycle(same_tf)]
fn same_tf(some: &Tf, other: &Tf) -> bool
    ensures { IsTrue result ↔ (tf_on_line_1 some.now ≡ tf_on_line_1 other.now) }
{
    match some {
        Tf::Null { line: _ } => match other {
            Tf::Null { line: _ } => true,
            _ => false,
        },
        Tf::Literal { value, line: _ } => match other {
            Tf::Literal {
                value: other,
                line: _,
            } => value.same(other),
            _ => false,
        },
        Tf::Path { names, line: _ } => match other {
            Tf::Path {
                names: others,
                line: _,
            } => names.same_aside(others),
            _ => false,
        },
        Tf::Parens { inner, line: _ } => match other {
            Tf::Parens {
                inner: other,
                line: _,
            } => same_tf(inner.get(), other.get()),
            _ => false,
        },
        Tf::Negate { operand, line: _ } => match other {
            Tf::Negate {
                operand: other,
                line: _,
            } => same_tf(operand.get(), other.get()),
            _ => false,
        },
        Tf::Binary {
            operator,
            left,
            right,
            line: _,
        } => match other {
            Tf::Binary {
                operator: other,
                left: first,
                right: second,
                line: _,
            } => {
                if !operator.same(other) {
                    return false;
                }
                if !same_tf(left.get(), first.get()) {
                    return false;
                }
                same_tf(right.get(), second.get())
            }
            _ => false,
        },
    }
}

impl SameAside for Tf {
    ghost use Rattle.class_defs.specs.UpgradeLinesAside.{tf_on_line_1};

    ghost on_line_1 = { tf_on_line_1 };

    fn same_aside(&self, other: &Tf) -> bool {
        same_tf(self, other)
    }
}

impl SameAside for FieldUpgrade {
    ghost use Rattle.class_defs.specs.UpgradeLinesAside.{field_on_line_1};

    ghost on_line_1 = { field_on_line_1 };

    fn same_aside(&self, other: &FieldUpgrade) -> bool {
        self.type_name.same_aside(&other.type_name)
            && self.name.same_aside(&other.name)
            && self.value.same_aside(&other.value)
    }
}

impl SameAside for Parameter {
    ghost use Rattle.class_defs.specs.LinesAside.{parameter_on_line_1};

    ghost on_line_1 = { parameter_on_line_1 };

    fn same_aside(&self, other: &Parameter) -> bool {
        self.type_name.same_aside(&other.type_name) && self.name.same_aside(&other.name)
    }
}

impl SameAside for Method {
    ghost use Rattle.class_defs.specs.LinesAside.{method_on_line_1};

    ghost on_line_1 = { method_on_line_1 };

    fn same_aside(&self, other: &Method) -> bool {
        self.result.same_aside(&other.result)
            && self.name.same_aside(&other.name)
            && self.parameters.same_aside(&other.parameters)
            && same_block(&self.body, &other.body)
    }
}

impl SameAside for ClassUpgrade {
    ghost use Rattle.class_defs.specs.UpgradeLinesAside.{class_on_line_1};

    ghost on_line_1 = { class_on_line_1 };

    fn same_aside(&self, other: &ClassUpgrade) -> bool {
        self.name.same_aside(&other.name)
            && self.fields.same_aside(&other.fields)
            && self.methods.same_aside(&other.methods)
    }
}

impl SameAside for Upgrade {
    ghost use Rattle.class_defs.specs.UpgradeLinesAside.{upgrade_on_line_1};

    ghost on_line_1 = { upgrade_on_line_1 };

    fn same_aside(&self, other: &Upgrade) -> bool {
        self.classes.same_aside(&other.classes)
    }
}
