ghost use Rattle.std.specs.Prelude.{◌≡◌, ◌≤◌, length, take};

use std::marker::Model;

/// At most `N` bytes, in memory of their own.
// An array and a length: memory is fixed, and the vectors without a heap that there are cannot be copied.
#[derive(Clone, Copy)]
pub struct FewBytes<const N: usize> {
    bytes: [u8; N],
    len: usize,
}

impl<const N: usize> Model for FewBytes<N> {
    ghost use Rattle.std.specs.Prelude.{ℕ, List};
    ghost use Rattle.vocabulary.specs.FewBytes.{in_front, filled, ZerosBehind, refilled};

    ghost Value = { List ℕ };

    ghost view = { in_front };

    ghost invariant = { ZerosBehind N };

    ghost inverse = { filled N };

    ghost inverse_ok = { refilled N };
}

impl<const N: usize> FewBytes<N> {
    /// The first `N` of the bytes.
    pub fn new(bytes: &[u8]) -> FewBytes<N>
        ensures { result ≡ take N bytes.now }
    {
        let len = bytes.len().min(N);
        let mut kept = [0; N];
        kept[..len].copy_from_slice(&bytes[..len]);
        FewBytes { bytes: kept, len }
    }

    /// The bytes.
    pub fn as_slice(&self) -> &[u8]
        ensures held { result.now ≡ self.now }
        ensures few { length self.now ≤ N }
    {
        let bytes = &self.bytes[..];
        &bytes[..self.len]
    }
}
