//! The trees of the language, and the definitions of what they mean.
#![tactic(auto)]

mod checked;
mod classes;
mod declarations;
mod expressions;
mod limits;
mod literals;
mod look;
mod machine;
mod operations;
mod places;
mod rule_words;
mod rules;
mod statements;
mod store;
mod types;
mod upgrades;

pub use checked::Checked;
pub use classes::{
    Class, ClassKind, Classes, Field, Fields, Method, Methods, Parameter, Parameters,
};
pub use declarations::{Declarations, WrittenRoot, WrittenRoots};
pub use expressions::{At, Expr, Exprs, Name, Operator, TypeName};
pub use limits::{CREATE_LIMIT, DEPTH_LIMIT, READ_LIMIT, STAND_IN_LIMIT, STEP_LIMIT};
pub use literals::Literal;
pub use look::{
    class_named, class_type, field_named, field_of, first_value, method_of, type_named, word_type,
};
pub use machine::{Flow, Local, Locals, Machine, NameSupply, Receiver, Stop};
pub use operations::{
    beginning, combined, fitted, literal_type, literal_value, number, push_printed,
};
pub use places::Place;
pub use rule_words::rule_word;
pub use rules::{NamedType, NamedTypes, Position, Rule, RuleFault};
pub use statements::{Block, Blocks, Stmt, Stmts};
pub use store::{
    Epochs, Object, Plain, PlainObjects, Root, RootDeclaration, RootDeclarations, Roots, Schema,
    Schemas, Setup, UpgradedSchema, UpgradedSchemas,
};
pub use types::ExprType;
pub use upgrades::{ClassUpgrade, ClassUpgrades, FieldUpgrade, FieldUpgrades, Names, Tf, Upgrade};
