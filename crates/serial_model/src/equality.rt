//! Whether two values are equal, part by part.

ghost use Rattle.std.specs.Prelude.{◌≡◌, ◌↔◌, IsTrue};

use class_defs::{Literal, Operator};
use thor_value::{Answer, Fault, Sequence, Word};

/// Values that can be told apart.
pub trait Same {
    /// Whether the two are equal.
    fn same(&self, other: &Self) -> bool
        ensures { IsTrue result ↔ (self.now ≡ other.now) };
}

impl Same for u8 {
    fn same(&self, other: &u8) -> bool {
        *self == *other
    }
}

impl Same for i64 {
    fn same(&self, other: &i64) -> bool {
        *self == *other
    }
}

impl Same for Fault {
    fn same(&self, other: &Fault) -> bool {
        *self == *other
    }
}

impl Same for Operator {
    fn same(&self, other: &Operator) -> bool {
        *self == *other
    }
}

impl Same for Word {
    #[tactic(auto, using(crate::proofs::Texts::same_bytes))]
    fn same(&self, other: &Word) -> bool {
        self.is(other)
    }
}

impl Same for Literal {
    fn same(&self, other: &Literal) -> bool {
        match (self, other) {
            (Literal::Int(number), Literal::Int(other)) => number.same(other),
            (Literal::Text(word), Literal::Text(other)) => word.same(other),
            (_, _) => false,
        }
    }
}

impl<T: Same> Same for Sequence<T> {
    fn same(&self, other: &Sequence<T>) -> bool {
        let (some, others) = (self.as_slice(), other.as_slice());
        if some.len() != others.len() {
            return false;
        }
        for place in 0..some.len() {
            if !some[place].same(&others[place]) {
                return false;
            }
        }
        true
    }
}

impl Same for Answer {
    fn same(&self, other: &Answer) -> bool {
        match (self, other) {
            (Answer::Ints(ints), Answer::Ints(others)) => ints.same(others),
            (Answer::Fault(fault), Answer::Fault(other)) => fault.same(other),
            (_, _) => false,
        }
    }
}
