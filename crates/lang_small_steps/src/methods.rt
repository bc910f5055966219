//! The methods of schemas, with bodies that evaluations share.

ghost use Rattle.std.specs.Prelude.{◌≡◌, ◌≤◌, find, length, map, option_and_then, slice_get, List, IfOk};
ghost use Rattle.std.specs.Option.{option_copied};
ghost use Rattle.std.specs.Str.{bytes_eq};
ghost use Rattle.class_defs.specs.Calls.{bound};
ghost use Rattle.class_defs.specs.declared.classes.Class.{Class};
ghost use Rattle.lang_small_steps.specs.Methods.{AreMethodsOf, class_methods, methods_at};
ghost use Rattle.lang_small_steps.specs.Typed.{IsTyped, typed};

use crate::parameters::{TypedParameters, locals_of, typed_parameters};
use class_defs::{
    Block, Classes, ExprType, Locals, Method, Methods, Name, Schemas, TypeName, UpgradedSchemas,
    type_named,
};
use std::alloc::Global;
use std::marker::Model;
use thor_value::{NoMemory, Sequence, TryCopy, Values, Word};

/// A method whose body has several owners, with the types that its words name. Contracts see it as that method, and these
/// beside it.
#[derive(Drop)]
pub struct SharedMethod {
    result: TypeName,
    name: Name,
    parameters: TypedParameters,
    body: Block,
    kind: ExprType,
}

impl Model for SharedMethod {
    ghost use Rattle.std.specs.Coded.{codes};
    ghost use Rattle.std.specs.Prelude.{map};
    ghost use Rattle.class_defs.specs.contracts.classes.Method as method;
    ghost use Rattle.lang_small_steps.specs.Typed.{TypedMethod};

    ghost Value = { TypedMethod };

    ghost coded = { Prim.hlevel (codes, method.the_row.coded) };

    ghost view = { λ m. record { method = record { result = m.result; name = m.name; parameters = map (λ p. p.declared) m.parameters; body = m.body }; parameters = m.parameters; result = m.kind } };
}

impl SharedMethod {
    /// A method of these classes, whose body is shared.
    #[tactic(auto, using(crate::proofs::Typed::declared_are))]
    fn copy_of(alloc: Global, classes: &Classes, method: &Method) -> Result<SharedMethod, NoMemory>
        requires { length classes.now ≤ 65536 }
        ensures { IfOk result (λ copied. copied ≡ typed classes.now method.now) }
    {
        Ok(SharedMethod {
            result: method.result.copy()?,
            name: method.name.copy()?,
            parameters: typed_parameters(alloc, classes, &method.parameters)?,
            body: method.body.share()?,
            kind: type_named(classes, &method.result),
        })
    }

    /// The type of what it returns.
    pub fn result(&self) -> ExprType
        ensures { result ≡ self.now.result }
    {
        self.kind
    }

    /// Its parameters with these arguments, as its body finds them; one that is missing begins as a field does.
    #[tactic(auto, using(crate::proofs::Typed::bound_as))]
    pub fn bound(&self, alloc: Global, arguments: &Values) -> Result<Locals, NoMemory>
        ensures { (classes : List Class) → IsTyped classes self.now → IfOk result (λ locals. locals ≡ bound classes self.now.method.parameters arguments.now) }
    {
        locals_of(alloc, &self.parameters, arguments)
    }

    /// Its body, with its owners.
    pub fn body(&self) -> &Block
        ensures { result.now ≡ self.now.method.body }
    {
        &self.body
    }

    /// Whether this is its name.
    fn is_named(&self, name: &Word) -> bool
        ensures { result ≡ bytes_eq self.now.method.name.text name.now }
    {
        self.name.text.is(name)
    }
}

/// No schema has more classes: they are numbered by `u16`.
pub const CLASS_LIMIT: usize = 65_536;

/// The methods of a class.
pub type SharedMethods = Sequence<SharedMethod>;

/// For each class of a schema its methods.
pub type ClassMethods = Sequence<SharedMethods>;

/// The methods of the schemas of all epochs.
#[derive(Drop)]
pub struct EpochMethods {
    /// Those of epoch 0.
    pub first: ClassMethods,
    /// Those of the epochs 1, 2, ..
    pub upgraded: Sequence<ClassMethods>,
}

/// Methods of these classes, whose bodies are shared.
fn shared_methods(
    alloc: Global,
    classes: &Classes,
    methods: &Methods,
) -> Result<SharedMethods, NoMemory>
    requires { length classes.now ≤ 65536 }
    ensures { IfOk result (λ copied. copied ≡ map (typed classes.now) methods.now) }
{
    let mut copied = Sequence::new(alloc);
    for method in methods.as_slice() {
        copied.push(SharedMethod::copy_of(alloc, classes, method)?)?;
    }
    Ok(copied)
}

/// The methods of classes, whose bodies are shared, with the types that their words name. `NoMemory` where
/// there are more classes than numbers for them.
pub fn class_methods(alloc: Global, classes: &Classes) -> Result<ClassMethods, NoMemory>
    ensures { IfOk result (λ methods. methods ≡ class_methods classes.now) }
{
    if classes.len() > CLASS_LIMIT {
        return Err(NoMemory);
    }
    let mut methods = Sequence::new(alloc);
    for class in classes.as_slice() {
        methods.push(shared_methods(alloc, classes, &class.methods)?)?;
    }
    Ok(methods)
}

/// The same of the schemas to which upgrades lead.
fn upgraded_methods(
    alloc: Global,
    upgraded: &UpgradedSchemas,
) -> Result<Sequence<ClassMethods>, NoMemory>
    ensures { IfOk result (λ methods. methods ≡ map (λ u. class_methods u.schema.classes) upgraded.now) }
{
    let mut methods = Sequence::new(alloc);
    for one in upgraded.as_slice() {
        methods.push(class_methods(alloc, &one.schema.classes)?)?;
    }
    Ok(methods)
}

/// The first method with this name.
fn method_named<'a>(methods: &'a SharedMethods, name: &Word) -> Option<&'a SharedMethod>
    ensures { option_copied result ≡ find (λ m. bytes_eq m.method.name.text name.now) methods.now }
{
    methods
        .as_slice()
        .iter()
        .find(|method| method.is_named(name))
}

/// The first method with this name of the class with this number.
pub fn shared_method<'a>(
    methods: &'a ClassMethods,
    class: u16,
    name: &Word,
) -> Option<&'a SharedMethod>
    ensures { option_copied result ≡ option_and_then (λ ms. find (λ m. bytes_eq m.method.name.text name.now) ms) (slice_get methods.now class) }
{
    match methods.get(usize::from(class)) {
        Some(found) => method_named(found, name),
        None => None,
    }
}

impl EpochMethods {
    /// The methods of the schemas of all epochs, whose bodies are shared.
    pub fn copy_of(alloc: Global, schemas: &Schemas) -> Result<EpochMethods, NoMemory>
        ensures { IfOk result (AreMethodsOf schemas.now) }
    {
        Ok(EpochMethods {
            first: class_methods(alloc, &schemas.first.classes)?,
            upgraded: upgraded_methods(alloc, &schemas.upgraded)?,
        })
    }

    /// Those of an epoch; nothing past the last one.
    pub fn at(&self, epoch: u32) -> Option<&ClassMethods>
        ensures { option_copied result ≡ methods_at self.now epoch }
    {
        if epoch == 0 {
            return Some(&self.first);
        }
        self.upgraded.get((epoch - 1) as usize)
    }
}
