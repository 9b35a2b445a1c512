ghost use Rattle.std.specs.Prelude.{◌≡◌, None};
ghost use Rattle.meaning.specs.Lists.{of_one};
ghost use Rattle.hosts.specs.Kinds.{kind_to_kind};

use thiserror::Error;
use vocabulary::types::{DType, Kind};

/// The fault of a call that does not bind: of another code, another count or other kinds.
// Kept a number, as `NO_POSITIVE` of the numbers: `Reply` has a code, and an enum would only be turned into it.
pub(crate) const DOES_NOT_BIND: u16 = 0;

/// A code that no function of the host has.
#[derive(Clone, Copy, Debug, PartialEq, Eq, Error)]
#[error("no function of the host has this code")]
pub struct UnknownCode;

/// The type of a function of one argument, of the kind `taken`: of the kind `given`, nullable where its argument
/// is.
pub(crate) fn type_of_one(types: &[DType], taken: Kind, given: Kind) -> Option<DType>
    ensures { result ≡ of_one None (kind_to_kind taken given) types.now }
{
    match types {
        [only] if only.kind() == taken => Some(DType::new(given, only.is_nullable())),
        _ => None,
    }
}
