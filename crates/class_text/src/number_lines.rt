//! Lines of a word and numbers, read.
ghost use Rattle.std.specs.Prelude.{◌≡◌, ◌<◌, ◌≤◌, ◌^◌, true, false, List, ℕ, IfOk, All, MatchOption, ◌∷◌};
ghost use Rattle.class_text.specs.Fields.{fields_of, fields_left, AreNumbers, AreHeights};
ghost use Rattle.ntfe_model.specs.Earlier.{IsHeightsLine};
ghost use Rattle.class_text.specs.Forms.{layout_of};
ghost use Rattle.class_text.specs.NumberLines.{IsNumberLine, has_space};

use crate::canonical::is_height;
use crate::fields::Fields;
use crate::form::TextForm;
use std::alloc::AllocError;

/// Takes so many fields, where they are numbers below the limit in canonical decimal.
fn take_numbers(
    fields: &mut Fields<'_>,
    count: u32,
    limit: u64,
    out: &mut Vec<u32>,
) -> Result<bool, AllocError>
    requires { limit ≤ 2 ^ 32 }
    ensures taken { IfOk result (λ is. is ≡ true → AreNumbers count limit out.new.items (fields_left fields.old) (fields_left fields.new)) }
    ensures refused { IfOk result (λ is. is ≡ false → (ns : List ℕ) (others : List (List ℕ)) → ¬ (AreNumbers count limit ns (fields_left fields.old) others)) }
{
    out.clear();
    for _ in 0..count {
        let Some(number) = fields.take_number() else {
            return Ok(false);
        };
        if number >= limit {
            return Ok(false);
        }
        out.push(number as u32)?;
    }
    Ok(true)
}

/// The fields of a line behind its word.
fn after_word<'a>(line: &'a [u8], word: &[u8]) -> Option<Fields<'a>>
    ensures { MatchOption result ((others : List (List ℕ)) → ¬ (fields_of line.now ≡ word.now ∷ others)) (λ f. fields_of line.now ≡ word.now ∷ fields_left f) }
{
    let mut fields = Fields::new(line);
    let first = fields.take()?;
    if first == word { Some(fields) } else { None }
}

/// Reads a line of a word and so many numbers below the limit, as it is written.
pub fn read_numbers(
    line: &[u8],
    word: &[u8],
    count: u32,
    limit: u64,
    out: &mut Vec<u32>,
) -> Result<bool, AllocError>
    requires limit { limit ≤ 2 ^ 32 }
    requires word { has_space word.now ≡ false }
    ensures read { IfOk result (λ is. is ≡ true → IsNumberLine word.now count limit line.now out.new.items) }
    ensures refused { IfOk result (λ is. is ≡ false → (ns : List ℕ) → ¬ (IsNumberLine word.now count limit line.now ns)) }
{
    let Some(mut fields) = after_word(line, word) else {
        return Ok(false);
    };
    if !take_numbers(&mut fields, count, limit, out)? {
        return Ok(false);
    }
    Ok(fields.are_done())
}

/// Takes so many fields, where they are heights: numbers of size less than 2^62 in canonical decimal.
fn take_heights(fields: &mut Fields<'_>, count: u32) -> bool
    ensures taken { result ≡ true → AreHeights count (fields_left fields.old) (fields_left fields.new) }
    ensures refused { result ≡ false → (others : List (List ℕ)) → ¬ (AreHeights count (fields_left fields.old) others) }
{
    for _ in 0..count {
        let Some(field) = fields.take() else {
            return false;
        };
        if !is_height(field) {
            return false;
        }
    }
    true
}

/// Whether a line is one of the heights of all points.
pub fn is_heights_line(form: &TextForm, line: &[u8]) -> bool
    ensures when_true { result ≡ true → IsHeightsLine (layout_of form.now) line.now }
    ensures when_false { result ≡ false → ¬ (IsHeightsLine (layout_of form.now) line.now) }
{
    let Some(mut fields) = after_word(line, b"heights") else {
        return false;
    };
    take_heights(&mut fields, form.points) && fields.are_done()
}
