//! Lines of a text, and the fields between the spaces of a line.
ghost use Rattle.std.specs.Prelude.{◌≡◌, ◌==◌, ◌+◌, ◌<◌, [], ◌∷◌, length, position, MatchOption, true, false, ◌≢◌};
ghost use Rattle.std.specs.List.{slice_split};
ghost use Rattle.ntfe_model.specs.Earlier.{whole_lines};
ghost use Rattle.class_text.specs.Fields.{fields_of, fields_left, IsNoNumber, IsNumber};

use crate::canonical::canonical;

/// Where a byte stands first.
fn place_of(bytes: &[u8], separator: u8) -> Option<usize>
    ensures { result ≡ position (λ b. b == separator) bytes.now }
{
    bytes.iter().position(|byte| *byte == separator)
}

/// Cuts bytes at the first place of a byte, which belongs to neither part.
fn cut(bytes: &[u8], separator: u8) -> Option<(&[u8], &[u8])>
    ensures parts { MatchOption result
        (slice_split (λ b. b == separator) bytes.now ≡ bytes.now ∷ [])
        (λ r. slice_split (λ b. b == separator) bytes.now ≡ r.0.now ∷ slice_split (λ b. b == separator) r.1.now) }
    ensures length { MatchOption result (Unit {0}) (λ r. length bytes.now ≡ length r.0.now + 1 + length r.1.now) }
{
    let place = place_of(bytes, separator)?;
    Some((&bytes[..place], &bytes[place + 1..]))
}

/// Takes the first whole line off: the line without its line feed, and the bytes behind it.
pub fn cut_line(bytes: &[u8]) -> Option<(&[u8], &[u8])>
    ensures lines { MatchOption result (whole_lines bytes.now ≡ []) (λ r. whole_lines bytes.now ≡ r.0.now ∷ whole_lines r.1.now) }
    ensures length { MatchOption result (Unit {0}) (λ r. length bytes.now ≡ length r.0.now + 1 + length r.1.now) }
{
    cut(bytes, b'\n')
}

/// The fields of a line from some field on.
#[derive(Drop)]
pub struct Fields<'a> {
    pub rest: Option<&'a [u8]>,
}

impl<'a> Fields<'a> {
    /// All fields of a line.
    pub fn new(line: &'a [u8]) -> Fields<'a>
        ensures { fields_left result ≡ fields_of line.now }
    {
        Fields { rest: Some(line) }
    }

    /// Takes the next field.
    pub fn take(&mut self) -> Option<&'a [u8]>
        ensures { MatchOption result (fields_left self.old ≡ []) (λ field. fields_left self.old ≡ field.now ∷ fields_left self.new) }
    {
        let rest = self.rest?;
        match cut(rest, b' ') {
            Some((field, more)) => {
                self.rest = Some(more);
                Some(field)
            }
            None => {
                self.rest = None;
                Some(rest)
            }
        }
    }

    /// Takes the next field, where it is a number below 10^19 in canonical decimal.
    pub fn take_number(&mut self) -> Option<u64>
        ensures { MatchOption result (IsNoNumber (fields_left self.old)) (λ n. IsNumber n (fields_left self.old) (fields_left self.new)) }
    {
        canonical(self.take()?)
    }

    /// Whether no field is left.
    pub fn are_done(&self) -> bool
        ensures when_true { result ≡ true → fields_left self.now ≡ [] }
        ensures when_false { result ≡ false → fields_left self.now ≢ [] }
    {
        self.rest.is_none()
    }
}
