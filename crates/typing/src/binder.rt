ghost use Rattle.std.specs.Prelude.{◌≡◌};
ghost use Rattle.meaning.specs.Columns.{column_type};
ghost use Rattle.meaning.specs.Typing.{item_type};
ghost use Rattle.meaning.specs.Values.{fits};
ghost use Rattle.typing.specs.Asked.{new_of, value_of};
ghost use Rattle.typing.specs.Typing.{asked_known, asked_counts, asked_type, literal_type};
ghost use Rattle.typing.specs.Typing.{bound_typing};

use crate::asking::{NewFunction, NewLiteral};
use crate::operands::{between_type, binary_type, cast_type};
use crate::typist::Typist;
use meaning::calls::call_type;
use meaning::host::Host;
use schemas::tables::Schemas;
use vocabulary::nodes::MAX_CHILDREN;
use vocabulary::refusals::BindingRefusal;
use vocabulary::types::{DType, Kind};

/// What nodes are bound against: the schemas and the host.
#[derive(Drop)]
pub struct Binder<H: Host> {
    pub schemas: Schemas,
    pub host: H,
}

impl<H: Host> Typist for Binder<H> {
    ghost typing = { λ b. bound_typing (H.Host.meaning b.host) b.schemas };

    /// The host has the function, it takes so many children, and they have types that it takes.
    fn type_of(
        &self,
        place: u32,
        asked: &NewFunction<'_>,
        count: usize,
        types: &[DType],
    ) -> Result<DType, BindingRefusal> {
        if !self.is_known(asked) {
            return Err(BindingRefusal::NoSuchCode(place));
        }
        if !self.takes(asked, count) {
            return Err(BindingRefusal::WrongChildCount(place));
        }
        self.bound(asked, types)
            .ok_or(BindingRefusal::DoesNotBind(place))
    }
}

impl<H: Host> Binder<H> {
    /// Whether it is a function of this arena: any but a call of a code that the host does not have.
    fn is_known(&self, asked: &NewFunction<'_>) -> bool
        ensures { result ≡ asked_known (H.Host.meaning self.now.host) (new_of asked.now) }
    {
        match *asked {
            NewFunction::Host(code) => self.host.has(code),
            _ => true,
        }
    }

    /// Whether the function takes so many children.
    fn takes(&self, asked: &NewFunction<'_>, count: usize) -> bool
        ensures { result ≡ asked_counts (H.Host.meaning self.now.host)
            (new_of asked.now) count }
    {
        match *asked {
            NewFunction::Host(code) => {
                count <= usize::from(MAX_CHILDREN) && self.host.takes(code, count as u8)
            }
            _ => asked.takes(count),
        }
    }

    /// The type of the function over children of those types, if it binds.
    fn bound(&self, asked: &NewFunction<'_>, types: &[DType]) -> Option<DType>
        ensures { result ≡ asked_type (H.Host.meaning self.now.host)
            self.now.schemas (new_of asked.now) types.now }
    {
        match (*asked, types) {
            (NewFunction::Root(schema), []) => Some(DType::new(Kind::Row(schema), false)),
            (NewFunction::Literal(dtype, value), []) => literal_type(dtype, value),
            (NewFunction::GetItem(name), [row]) => item_type(&self.schemas, name, row.kind()),
            (NewFunction::Cast(to), [from]) => cast_type(to, *from),
            (NewFunction::Binary(operator), [left, right]) => binary_type(operator, *left, *right),
            (NewFunction::Between(_), [column, lower, upper]) => {
                between_type(*column, *lower, *upper)
            }
            (NewFunction::Host(code), _) => call_type(&self.host, code, types),
            _ => None,
        }
    }
}

/// The type of a row's column of that name; nothing else has columns.
fn item_type(schemas: &Schemas, name: &[u8], row: Kind) -> Option<DType>
    ensures { result ≡ item_type schemas.now name.now row }
{
    match row {
        Kind::Row(schema) => column_type(schemas, schema, name),
        _ => None,
    }
}

/// The type of a schema's column of that name.
fn column_type(schemas: &Schemas, schema: u8, name: &[u8]) -> Option<DType>
    ensures { result ≡ column_type schemas.now schema name.now }
{
    // Kept: the look-up refuses these too, but without this test, where `len` says that there are eight, the proof does
    // not close.
    if usize::from(schema) >= schemas.len() {
        return None;
    }
    let found = schemas.find(schema, name).ok().flatten()?;
    Some(found.dtype)
}

/// The type of a literal, where it is plain and the value is one of its values.
fn literal_type(dtype: DType, value: NewLiteral<'_>) -> Option<DType>
    ensures { result ≡ literal_type dtype (value_of value.entry) }
{
    if value.fits(dtype) && dtype.is_plain() {
        Some(dtype)
    } else {
        None
    }
}
