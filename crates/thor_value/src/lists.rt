use crate::names::{Oref, Ts};
use crate::sequence::Sequence;
use crate::values::{Obj, Value};

/// Bytes.
pub type Text = Sequence<u8>;

/// Several texts.
pub type Texts = Sequence<Text>;

/// Names of objects.
pub type Orefs = Sequence<Oref>;

/// The fields of an object.
pub type Values = Sequence<Value>;

/// Objects with the names under which they are written.
pub type Writes = Sequence<(Oref, Obj)>;

/// Printed values.
pub type Ints = Sequence<i64>;

/// Numbers of repositories.
pub type Repos = Sequence<u8>;

/// Timestamps.
pub type Stamps = Sequence<Ts>;
