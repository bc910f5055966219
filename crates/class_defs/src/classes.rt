use crate::expressions::{Name, TypeName};
use crate::statements::Block;
use thor_value::{NoMemory, Sequence, TryCopy};

/// Whether objects of a class stand alone or belong to one owner, for good.
#[derive(Clone, Copy, Debug, PartialEq, Eq)]
pub enum ClassKind {
    Free,
    Part,
}

#[derive(Debug, Drop)]
pub struct Field {
    pub type_name: TypeName,
    pub name: Name,
}

pub type Fields = Sequence<Field>;

#[derive(Debug, Drop)]
pub struct Parameter {
    pub type_name: TypeName,
    pub name: Name,
}

pub type Parameters = Sequence<Parameter>;

#[derive(Debug)]
pub struct Method {
    pub result: TypeName,
    pub name: Name,
    pub parameters: Parameters,
    pub body: Block,
}

impl Drop for Method {
    fn drop(self) {
        let Method {
            result,
            name,
            parameters,
            body,
        } = self;
        drop(result);
        drop(name);
        drop(parameters);
        drop(body);
    }
}

pub type Methods = Sequence<Method>;

#[derive(Debug)]
pub struct Class {
    pub kind: ClassKind,
    pub name: Name,
    pub fields: Fields,
    pub methods: Methods,
}

impl Drop for Class {
    fn drop(self) {
        let Class {
            kind,
            name,
            fields,
            methods,
        } = self;
        let _ = kind;
        drop(name);
        drop(fields);
        drop(methods);
    }
}

/// Classes, numbered from 0 in their order.
pub type Classes = Sequence<Class>;

impl TryCopy for Field {
    fn copy(&self) -> Result<Field, NoMemory> {
        Ok(Field {
            type_name: self.type_name.copy()?,
            name: self.name.copy()?,
        })
    }
}

impl TryCopy for Parameter {
    fn copy(&self) -> Result<Parameter, NoMemory> {
        Ok(Parameter {
            type_name: self.type_name.copy()?,
            name: self.name.copy()?,
        })
    }
}

impl TryCopy for Method {
    fn copy(&self) -> Result<Method, NoMemory> {
        Ok(Method {
            result: self.result.copy()?,
            name: self.name.copy()?,
            parameters: self.parameters.copy()?,
            body: self.body.copy()?,
        })
    }
}

impl TryCopy for Class {
    fn copy(&self) -> Result<Class, NoMemory> {
        Ok(Class {
            kind: self.kind,
            name: self.name.copy()?,
            fields: self.fields.copy()?,
            methods: self.methods.copy()?,
        })
    }
}
