ghost use Rattle.std.specs.Prelude.{◌≡◌, true, IfSome};
ghost use Rattle.vocabulary.specs.Types.{is_plain};
ghost use Rattle.meaning.specs.Hosts.{all_plain, host_type};

use crate::host::Host;
use vocabulary::nodes::MAX_CHILDREN;
use vocabulary::types::DType;

/// The type of a call over arguments of those types, if it binds: the host has the function, it takes so many
/// arguments, they are at most eight and of plain types, and the host has a type for them. It is plain too.
pub fn call_type<H: Host>(host: &H, code: u16, types: &[DType]) -> Option<DType>
    ensures value { result ≡ host_type (H.Host.meaning host.now) code types.now }
    ensures plain { IfSome result (λ t. is_plain t ≡ true) }
{
    if types.len() > usize::from(MAX_CHILDREN) || !all_plain(types) {
        return None;
    }
    if !host.has(code) || !host.takes(code, types.len() as u8) {
        return None;
    }
    host.type_of(code, types)
}

/// Whether each of the types is plain.
fn all_plain(types: &[DType]) -> bool
    ensures { result ≡ all_plain types.now }
{
    types.iter().all(|dtype| dtype.is_plain())
}
