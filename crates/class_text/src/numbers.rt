//! Lines of a word and numbers.
ghost use Rattle.std.specs.Prelude.{◌≡◌, ◌++◌, IfOk, string_bytes, decimal, flat_map, [], ◌∷◌};
ghost use Rattle.std.specs.Fmt.{signed_decimal};
ghost use Rattle.ntfe_model.specs.RunText.{vector_line, number_line, signed_line, spaced};

use crate::lines::Line;
use ntfe_model::Vec4;
use std::alloc::{AllocError, Global};
use std::fmt::Write;

/// Appends a space and a number.
pub fn append_number(text: &mut String, n: u64) -> Result<(), AllocError>
    ensures { IfOk result (λ _. string_bytes text.new ≡ string_bytes text.old ++ spaced (decimal n)) }
{
    write!(text, " {n}")
}

/// Appends a space and a number with its sign.
pub fn append_signed(text: &mut String, n: i64) -> Result<(), AllocError>
    ensures { IfOk result (λ _. string_bytes text.new ≡ string_bytes text.old ++ spaced (signed_decimal n)) }
{
    write!(text, " {n}")
}

/// Appends numbers, one space before each.
pub fn append_numbers(text: &mut String, numbers: &[u32]) -> Result<(), AllocError>
    ensures { IfOk result (λ _. string_bytes text.new ≡ string_bytes text.old ++ flat_map (λ n. spaced (decimal n)) numbers.now) }
{
    for n in numbers {
        append_number(text, u64::from(*n))?;
    }
    Ok(())
}

/// A word and numbers, one space before each, and a line feed.
pub fn numbers_text(alloc: Global, word: &str, numbers: &[u32]) -> Result<String, AllocError>
    ensures { IfOk result (λ s. string_bytes s ≡ number_line word.now numbers.now) }
{
    let mut text = String::from_str(alloc, word)?;
    append_numbers(&mut text, numbers)?;
    text.push('\n')?;
    Ok(text)
}

/// A word and one number.
pub fn count_text(alloc: Global, word: &str, count: u64) -> Result<String, AllocError>
    ensures { IfOk result (λ s. string_bytes s ≡ number_line word.now (count ∷ [])) }
{
    let mut text = String::from_str(alloc, word)?;
    append_number(&mut text, count)?;
    text.push('\n')?;
    Ok(text)
}

/// A word and numbers with their signs, one space before each, and a line feed.
pub fn signed_text(alloc: Global, word: &str, numbers: &[i64]) -> Result<String, AllocError>
    ensures { IfOk result (λ s. string_bytes s ≡ signed_line word.now numbers.now) }
{
    let mut text = String::from_str(alloc, word)?;
    for n in numbers {
        append_signed(&mut text, *n)?;
    }
    text.push('\n')?;
    Ok(text)
}

/// The line of four numbers.
fn four_numbers(alloc: Global, a: i64, b: i64, c: i64, d: i64) -> Result<String, AllocError>
    ensures { IfOk result (λ s. string_bytes s ≡ vector_line (record { x1 = a; x2 = b; x3 = c; x4 = d })) }
{
    let mut text = format!(in alloc; "{a}")?;
    append_signed(&mut text, b)?;
    append_signed(&mut text, c)?;
    append_signed(&mut text, d)?;
    text.push('\n')?;
    Ok(text)
}

impl Line for Vec4 {
    ghost line = { vector_line };

    fn text(&self, alloc: Global) -> Result<String, AllocError> {
        let x = self.coordinates();
        four_numbers(alloc, x[0], x[1], x[2], x[3])
    }
}
