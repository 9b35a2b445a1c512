ghost use Rattle.std.specs.Prelude.{◌≡◌};
ghost use Rattle.notation.specs.Naturals.{natural, one_more};

/// The number with one more digit behind it, if that byte is a digit and the number has at most 64 bits.
fn push_digit(number: u64, digit: u8) -> Option<u64>
    ensures { result ≡ one_more number digit }
{
    let digit = char::from(digit).to_digit(10)?;
    number.checked_mul(10)?.checked_add(u64::from(digit))
}

/// The number that the digits write, if there are some and it has at most 64 bits.
pub(crate) fn read_natural(digits: &[u8]) -> Option<u64>
    ensures { result ≡ natural digits.now }
{
    if digits.is_empty() {
        return None;
    }
    digits
        .iter()
        .try_fold(0, |number, digit| push_digit(number, *digit))
}
