ghost use Rattle.std.specs.Prelude.{◌≡◌, ◌≢◌, length};
ghost use Rattle.std.specs.Result.{MatchResult, result_map_both};
ghost use Rattle.notation.specs.Lines.{said, mistaken, column_line, directive_named, line_said};
ghost use Rattle.notation.specs.Words.{after_blanks, word, after_word};

use crate::line::{Complaint, Directive, Line, Mistake};
use crate::type_names::read_type;
use crate::words::{after_blanks, split_word};

/// What of a line is still to be read.
#[derive(Clone, Copy)]
struct Rest<'a> {
    line: &'a [u8],
    bytes: &'a [u8],
}

impl<'a> Rest<'a> {
    /// A complaint about the place where the rest begins.
    fn mistake(self, complaint: Complaint) -> Mistake
        ensures { result ≡ mistaken self.entry.line.now self.entry.bytes.now complaint }
    {
        Mistake {
            at: self.line.len().saturating_sub(self.bytes.len()),
            complaint,
        }
    }

    /// The rest without the blanks in front.
    fn past_blanks(self) -> Rest<'a>
        ensures line { result.line.now ≡ self.entry.line.now }
        ensures bytes { result.bytes.now ≡ after_blanks self.entry.bytes.now }
    {
        let bytes = after_blanks(self.bytes);
        Rest { bytes, ..self }
    }

    /// The word in front, and the rest right behind it; a complaint if there is no word.
    fn next_word(self, missing: Complaint) -> Result<(&'a [u8], Rest<'a>), Mistake>
        ensures word { MatchResult result
            (λ r. (length self.entry.bytes.now ≢ 0) × (r.0.now ≡ word self.entry.bytes.now))
            (λ e. (length self.entry.bytes.now ≡ 0)
            × (e ≡ mistaken self.entry.line.now self.entry.bytes.now missing)) }
        ensures rest { MatchResult result
            (λ r. (r.1.line.now ≡ self.entry.line.now)
            × (r.1.bytes.now ≡ after_word self.entry.bytes.now))
            (λ e. length self.entry.bytes.now ≡ 0) }
    {
        if self.bytes.is_empty() {
            return Err(self.mistake(missing));
        }
        let (word, bytes) = split_word(self.bytes);
        Ok((word, Rest { bytes, ..self }))
    }

    /// A `column` line, from its name on.
    fn read_column(self) -> Result<Line<'a>, Mistake>
        ensures { result_map_both said (λ e. e) result ≡ column_line self.entry.line.now self.entry.bytes.now }
    {
        let (name, behind) = self.next_word(Complaint::NameMissing)?;
        let of_type = behind.past_blanks();
        let (word, behind) = of_type.next_word(Complaint::TypeMissing)?;
        let Some(dtype) = read_type(word) else {
            return Err(of_type.mistake(Complaint::NotAType));
        };
        let end = behind.past_blanks();
        if end.bytes.is_empty() {
            Ok(Line::Column(name, dtype))
        } else {
            Err(end.mistake(Complaint::Surplus))
        }
    }
}

/// The directive of that name.
// Kept an `Option`: a `TryFrom` with an error type of its own is longer and says no more.
fn read_directive(name: &[u8]) -> Option<Directive>
    ensures { result ≡ directive_named name.now }
{
    if name == b"column".as_slice() {
        Some(Directive::Column)
    } else {
        None
    }
}

/// What a line says, or the first place that is wrong.
pub fn read_line(line: &[u8]) -> Result<Line<'_>, Mistake>
    ensures { result_map_both said (λ e. e) result ≡ line_said line.now }
{
    let start = Rest { line, bytes: line }.past_blanks();
    if start.bytes.is_empty() || start.bytes.starts_with(b"#") {
        return Ok(Line::Blank);
    }
    let (name, behind) = start.next_word(Complaint::NoSuchDirective)?;
    match read_directive(name) {
        Some(Directive::Column) => behind.past_blanks().read_column(),
        None => Err(start.mistake(Complaint::NoSuchDirective)),
    }
}
