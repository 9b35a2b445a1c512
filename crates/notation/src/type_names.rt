ghost use Rattle.std.specs.Prelude.{◌≡◌};
ghost use Rattle.notation.specs.TypeNames.{byte_named, number_after, numbered_kind, kind_named, type_named};

use crate::naturals::read_natural;
use vocabulary::types::{DType, Kind};

/// The number of one byte that the digits write.
fn read_byte(digits: &[u8]) -> Option<u8>
    ensures { result ≡ byte_named digits.now }
{
    u8::try_from(read_natural(digits)?).ok()
}

/// The number between the beginning and a closing bracket.
fn read_after(name: &[u8], beginning: &[u8]) -> Option<u8>
    ensures { result ≡ number_after beginning.now name.now }
{
    read_byte(name.strip_prefix(beginning)?.strip_suffix(b")")?)
}

/// An `Extension` or a `Row`, by its number in brackets.
fn read_numbered_kind(name: &[u8]) -> Option<Kind>
    ensures { result ≡ numbered_kind name.now }
{
    read_after(name, b"Extension(")
        .map(Kind::Extension)
        .or_else(|| read_after(name, b"Row(").map(Kind::Row))
}

/// The kind of that name.
// A function and no `TryFrom`, as for types: both are of another crate.
pub(crate) fn read_kind(name: &[u8]) -> Option<Kind>
    ensures { result ≡ kind_named name.now }
{
    match name {
        b"Bool" => Some(Kind::Bool),
        b"I64" => Some(Kind::I64),
        b"U64" => Some(Kind::U64),
        b"Utf8" => Some(Kind::Utf8),
        _ => read_numbered_kind(name),
    }
}

/// The type of that name: its kind's, with a question mark behind it if it is nullable.
pub(crate) fn read_type(name: &[u8]) -> Option<DType>
    ensures { result ≡ type_named name.now }
{
    match name.strip_suffix(b"?") {
        Some(kind) => Some(DType::new(read_kind(kind)?, true)),
        None => Some(DType::new(read_kind(name)?, false)),
    }
}
