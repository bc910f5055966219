use thor_value::Word;

/// What a literal of the language stands for.
#[derive(Clone, Copy, Debug, PartialEq, Eq)]
pub enum Literal {
    /// A number.
    Int(i64),
    /// The text between quotation marks.
    Text(Word),
}
