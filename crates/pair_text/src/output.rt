//! The input of `resume`, cut at its line `output`.
ghost use Rattle.std.specs.Prelude.{◌≡◌, ◌⊎◌, ◌+◌, ◌<◌, ◌++◌, true, false, [], ◌∷◌, All, length, MatchOption};
ghost use Rattle.std.specs.Str.Lines.{strip_carriage_return};
ghost use Rattle.ntfe_model.specs.PairText.{lines};
ghost use Rattle.pair_text.specs.Output.{IsOutputLine, IsSplitAtOutput, IsFirstLine};

use crate::line::{Fields, line_end, without_first, without_return};

/// The first line of a text and the bytes behind it.
fn first_line(bytes: &[u8]) -> (&[u8], &[u8])
    requires { 0 < length bytes.now }
    ensures { IsFirstLine bytes.now result.0.now result.1.now }
{
    let length = line_end(bytes).unwrap_or(bytes.len());
    let (line, after) = bytes.split_at(length);
    (line, without_first(after))
}

/// Whether the only field of a line is `output`.
fn is_output_line(line: &[u8]) -> bool
    ensures when_true { result ≡ true → IsOutputLine line.now }
    ensures when_false { result ≡ false → ¬ (IsOutputLine line.now) }
{
    let mut fields = Fields::new(without_return(line));
    match fields.take_field() {
        Some(field) => field == b"output".as_slice() && fields.take_field().is_none(),
        None => false,
    }
}

/// What stands before the first line whose only field is `output`, and what follows it. `None` exactly where there
/// is no such line.
pub fn split_at_output(bytes: &[u8]) -> Option<(&[u8], &[u8])>
    ensures { MatchOption result (All (λ line. ¬ (IsOutputLine line)) (lines bytes.now)) (λ p. IsSplitAtOutput bytes.now p.0.now p.1.now) }
{
    let mut rest = bytes;
    while !rest.is_empty() {
        let (line, behind) = first_line(rest);
        if is_output_line(line) {
            let before = bytes.len() - rest.len();
            return Some((&bytes[..before], behind));
        }
        rest = behind;
    }
    None
}
