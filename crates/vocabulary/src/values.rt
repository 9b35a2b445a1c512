ghost use Rattle.std.specs.Prelude.{◌≡◌};
ghost use Rattle.vocabulary.specs.Values.{is_within, fitting, IfText, WithText};

use crate::types::*;

/// A part of a text: where it starts, and its length in bytes.
#[derive(Clone, Copy)]
pub struct Span {
    pub start: u32,
    pub len: u32,
}

impl Span {
    /// Whether the part ends inside a text of that length.
    pub fn is_within(self, len: usize) -> bool
        ensures { result ≡ is_within self len }
    {
        self.start as usize + self.len as usize <= len
    }
}

/// Where a text lies: in the arena's text or in that of the row.
#[derive(Clone, Copy)]
pub enum Text {
    Arena(Span),
    Row(Span),
}

/// A value, null included. A text is held by its place, if nothing else is said.
#[derive(Clone, Copy)]
pub enum Value<T = Text> {
    Null,
    Bool(bool),
    I64(i64),
    U64(u64),
    Utf8(T),
    /// The number of the Extension, and its value.
    Extension(u8, i64),
}

impl<T: Copy> Value<T> {
    /// Whether it is among the type's values: null only of a nullable type, any other by its kind.
    pub fn fits(self, dtype: DType) -> bool
        ensures { result ≡ fitting self dtype }
    {
        match self {
            Value::Null => dtype.nullable,
            Value::Bool(_) => dtype.kind == Kind::Bool,
            Value::I64(_) => dtype.kind == Kind::I64,
            Value::U64(_) => dtype.kind == Kind::U64,
            Value::Utf8(_) => dtype.kind == Kind::Utf8,
            Value::Extension(e, _) => dtype.kind == Kind::Extension(e),
        }
    }
}

impl<T> Value<T> {
    /// The value with another text in place of its own, if it has one.
    pub fn map<U, F: FnOnce(T) -> U>(self, f: F) -> Value<U>
        requires { IfText self (F.pre f) }
        ensures { WithText (F.post f) self result }
    {
        match self {
            Value::Null => Value::Null,
            Value::Bool(b) => Value::Bool(b),
            Value::I64(x) => Value::I64(x),
            Value::U64(x) => Value::U64(x),
            Value::Utf8(text) => Value::Utf8(f(text)),
            Value::Extension(e, x) => Value::Extension(e, x),
        }
    }
}
