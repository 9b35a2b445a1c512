use std::fmt;

/// Bytes as text: a byte that is no printable character of ASCII is written by its number.
// Kept as a wrapper: the library's `escape_ascii` writes quotes, tabs and ends of lines in other ways.
#[derive(Clone, Copy)]
pub struct BytesText<'a>(pub &'a [u8]);

impl fmt::Display for BytesText<'_> {
    fn fmt<W: fmt::Write>(&self, f: &mut fmt::Formatter<W>) -> fmt::Result {
        for byte in self.0 {
            match byte {
                b' '..=b'~' => write!(f, "{}", char::from(*byte))?,
                _ => write!(f, "\\x{byte:02x}")?,
            }
        }
        Ok(())
    }
}
