ghost use Rattle.std.specs.Prelude.{◌≡◌, Some};
ghost use Rattle.vocabulary.specs.Printed.{kind_name, type_name};
ghost use Rattle.vocabulary.specs.Types.{alike, type_of, is_plain};

use std::fmt;

/// What a type's values are, null apart.
#[derive(Clone, Copy, PartialEq, Eq)]
pub enum Kind {
    Bool,
    I64,
    U64,
    /// Text, as bytes that nothing checks.
    Utf8,
    /// A signed 64-bit value of one of the sixteen types that a customer numbers 0 to 15.
    Extension(u8),
    /// The whole row of a schema, which only a `GetItem` takes apart.
    Row(u8),
}

/// A kind, and whether null is among its values. A `Row` is never nullable.
#[derive(Clone, Copy, PartialEq, Eq)]
pub struct DType {
    pub(crate) kind: Kind,
    pub(crate) nullable: bool,
}

impl DType {
    /// The type of that kind, nullable if asked and if the kind is not a `Row`.
    pub fn new(kind: Kind, nullable: bool) -> DType
        ensures { result ≡ type_of kind nullable }
    {
        match kind {
            Kind::Row(_) => DType {
                kind,
                nullable: false,
            },
            _ => DType { kind, nullable },
        }
    }

    pub fn kind(self) -> Kind
        ensures { result ≡ self.kind }
    {
        self.kind
    }

    pub fn is_nullable(self) -> bool
        ensures { result ≡ self.nullable }
    {
        self.nullable
    }

    /// Whether both have the same kind, the number of an `Extension` or a `Row` included: whether they are alike.
    pub fn eq_ignore_nullability(self, other: DType) -> bool
        ensures { result ≡ alike self other }
    {
        other.kind == self.kind
    }

    /// Whether a column may have it: it is no `Row`, and no `Extension` above 15.
    pub fn is_plain(self) -> bool
        ensures { result ≡ is_plain self }
    {
        match self.kind {
            Kind::Row(_) => false,
            Kind::Extension(e) => e <= 15,
            _ => true,
        }
    }
}

/// Its name, with the number that it carries in brackets.
impl fmt::Display for Kind {
    ghost output = { λ k. Some (kind_name k) };

    fn fmt<W: fmt::Write>(&self, f: &mut fmt::Formatter<W>) -> fmt::Result {
        match self {
            Kind::Bool => write!(f, "Bool"),
            Kind::I64 => write!(f, "I64"),
            Kind::U64 => write!(f, "U64"),
            Kind::Utf8 => write!(f, "Utf8"),
            Kind::Extension(number) => write!(f, "Extension({number})"),
            Kind::Row(number) => write!(f, "Row({number})"),
        }
    }
}

/// Its kind, and a question mark behind it if it is nullable.
impl fmt::Display for DType {
    ghost output = { λ t. Some (type_name t) };

    fn fmt<W: fmt::Write>(&self, f: &mut fmt::Formatter<W>) -> fmt::Result {
        let kind = self.kind;
        let mark = if self.nullable { "?" } else { "" };
        write!(f, "{kind}{mark}")
    }
}
