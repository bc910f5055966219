ghost use Rattle.std.specs.Prelude.{◌≡◌, ◌++◌, map, OnOk};
ghost use Rattle.class_defs.specs.declared.expressions.Name.{Name as DeclaredName};

use class_defs::{Class, Field, Method, Name, Names, Parameter, RootDeclaration};
use thor_value::{NoMemory, TryCopy};

/// What is declared by a name.
pub trait Declared {
    ghost name_of: { Self → DeclaredName };

    fn name(&self) -> &Name
        ensures { result.now ≡ name_of self.now };
}

impl Declared for Class {
    ghost name_of = { λ c. c.name };

    fn name(&self) -> &Name {
        &self.name
    }
}

impl Declared for Field {
    ghost name_of = { λ f. f.name };

    fn name(&self) -> &Name {
        &self.name
    }
}

impl Declared for Method {
    ghost name_of = { λ m. m.name };

    fn name(&self) -> &Name {
        &self.name
    }
}

impl Declared for Parameter {
    ghost name_of = { λ p. p.name };

    fn name(&self) -> &Name {
        &self.name
    }
}

impl Declared for RootDeclaration {
    ghost name_of = { λ r. r.name };

    fn name(&self) -> &Name {
        &self.name
    }
}

/// Puts the names of what is declared behind the names.
pub fn names_of<T: Declared>(declared: &[T], names: &mut Names) -> Result<(), NoMemory>
    ensures { OnOk result (names.new ≡ names.old ++ map T.name_of declared.now) }
{
    for item in declared {
        names.push(item.name().copy()?)?;
    }
    Ok(())
}
