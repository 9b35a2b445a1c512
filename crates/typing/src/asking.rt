use vocabulary::operators::{BetweenOptions, Operator};
use vocabulary::types::DType;
use vocabulary::values::Value;

/// The value of a literal that is asked for, a text by its bytes.
pub type NewLiteral<'a> = Value<&'a [u8]>;

/// The function of a node that is asked for, a name by its bytes.
// Kept beside the record's `Function`: three of the seven cases hold other things, and one type for both would have a
// parameter for each.
#[derive(Clone, Copy)]
pub enum NewFunction<'a> {
    /// The row of a schema, by its number.
    Root(u8),
    Literal(DType, NewLiteral<'a>),
    GetItem(&'a [u8]),
    Cast(DType),
    Binary(Operator),
    Between(BetweenOptions),
    /// A function of the host, by its code.
    Host(u16),
}
