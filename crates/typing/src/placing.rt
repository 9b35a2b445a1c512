ghost use Rattle.std.specs.Prelude.{◌≡◌};
ghost use Rattle.model.specs.Wanted.{new_bytes};
ghost use Rattle.typing.specs.Asked.{new_of, value_of};
ghost use Rattle.typing.specs.Placing.{value_at, function_at};

use crate::asking::{NewFunction, NewLiteral};
use vocabulary::nodes::Function;
use vocabulary::values::{Span, Text, Value};

impl<'a> NewFunction<'a> {
    /// The bytes that go behind the text: those of a literal's text or of a name.
    pub fn bytes(self) -> &'a [u8]
        ensures { result.now ≡ new_bytes (new_of self.entry) }
    {
        match self {
            NewFunction::Literal(_, Value::Utf8(text)) => text,
            NewFunction::GetItem(name) => name,
            _ => &[],
        }
    }

    /// The function as it is recorded, with its text at that place.
    pub fn placed(self, span: Span) -> Function
        ensures { result ≡ function_at span (new_of self.entry) }
    {
        match self {
            NewFunction::Root(_) => Function::Root,
            NewFunction::Literal(dtype, value) => Function::Literal(dtype, placed(value, span)),
            NewFunction::GetItem(_) => Function::GetItem(span),
            NewFunction::Cast(dtype) => Function::Cast(dtype),
            NewFunction::Binary(operator) => Function::Binary(operator),
            NewFunction::Between(options) => Function::Between(options),
            NewFunction::Host(code) => Function::Host(code),
        }
    }
}

/// The value as it is recorded, with its text at that place.
fn placed(value: NewLiteral<'_>, span: Span) -> Value
    ensures { result ≡ value_at span (value_of value.entry) }
{
    value.map(|_| Text::Arena(span))
}
