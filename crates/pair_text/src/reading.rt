//! Pair text is read.
ghost use Rattle.std.specs.Prelude.{◌≡◌, ◌≢◌, ◌⊎◌, ◌<◌, ◌≤◌, ◌^◌, List, ℕ, [], ◌∷◌, length, IfOk, IfErr, MatchOption, MatchResult, OnOk};
ghost use Rattle.std.specs.List.{AllZip};
ghost use Rattle.ntfe_model.specs.Pairs.{VertexLists};
ghost use Rattle.ntfe_model.specs.PairText.{IsPairText, fields, IsCountLine, IsVectorLine, AreListLines, IsDueInList, HasFields, count_of, four_numbers};
ghost use Rattle.pair_text.specs.Cursors.{lines_left, AreFew, line_of, Takes};
ghost use Rattle.pair_text.specs.declared.fault.TextFault.{TextFault};
ghost use Rattle.pair_text.specs.Faults.{HasCause, IsCauseIn, IsFaultOf, IsDueInVectors};

use crate::fault::TextFault;
use crate::line::{Fields, Lines, TextLine};
use crate::number::{are_small, four_numbers, is_small, number};
use ntfe_model::{Pair, Vec4};
use std::alloc::Global;

/// Reads pair text, of at most 4,294,967,295 bytes: `vertices` and a count, so many lines of four numbers,
/// `dual` and a count, so many lines of four numbers. Counts are from 5 to 64, and sizes at most 1,023.
/// Any other text has one fault, the first one in order of lines. Its line is counted from 1, skipped lines too.
pub fn read_pair(alloc: Global, bytes: &[u8]) -> Result<Pair, TextFault>
    requires { length bytes.now < 2 ^ 32 }
    ensures ok { IfOk result (λ p. IsPairText bytes.now p) }
    ensures only { (p : VertexLists) → IsPairText bytes.now p → MatchResult result (λ q. q ≡ p) (λ e. e ≡ TextFault.Memory) }
    ensures fault { IfErr result (HasCause bytes.now) }
    ensures exact { (fault : TextFault) → fault ≢ TextFault.Memory → HasCause bytes.now fault → MatchResult result (λ _. ⊥) (λ e. (e ≡ fault) ⊎ (e ≡ TextFault.Memory)) }
{
    read_lines(alloc, bytes)
}

/// Reads the lines of a pair.
fn read_lines(alloc: Global, bytes: &[u8]) -> Result<Pair, TextFault>
    requires { length bytes.now < 2 ^ 32 }
    ensures ok { IfOk result (λ p. IsPairText bytes.now p) }
    ensures fault { IfErr result (HasCause bytes.now) }
{
    let mut lines = Lines::new(bytes);
    let vertices = read_list(alloc, &mut lines, b"vertices")?;
    let dual = read_list(alloc, &mut lines, b"dual")?;
    match lines.take_unskipped() {
        Some(line) => Err(TextFault::Long { line: line.number }),
        None => Ok(Pair::new(vertices, dual)),
    }
}

/// Reads the lines of one list.
fn read_list(alloc: Global, lines: &mut Lines<'_>, word: &[u8]) -> Result<Vec<Vec4>, TextFault>
    requires few { AreFew lines.old }
    ensures few { OnOk result (AreFew lines.new) }
    ensures ok { IfOk result (λ vs. Takes (AreListLines word.now vs.items) lines.old lines.new) }
    ensures fault { IfErr result (λ e. IsCauseIn (IsDueInList word.now) (lines_left lines.old) e) }
{
    let Some(head) = lines.take_unskipped() else {
        return Err(TextFault::Short);
    };
    let count = read_count(&head, word)?;
    read_vectors(alloc, lines, count)
}

/// Reads so many lines of four numbers.
fn read_vectors(alloc: Global, lines: &mut Lines<'_>, count: u8) -> Result<Vec<Vec4>, TextFault>
    requires few { AreFew lines.old }
    ensures few { OnOk result (AreFew lines.new) }
    ensures ok { IfOk result (λ vs. Takes (λ taken. AllZip IsVectorLine taken vs.items) lines.old lines.new) }
    ensures count { IfOk result (λ vs. length vs.items ≡ count) }
    ensures fault { IfErr result (λ e. IsCauseIn (IsDueInVectors count) (lines_left lines.old) e) }
{
    let mut vectors = Vec::new(alloc);
    for _ in 0..count {
        let Some(line) = lines.take_unskipped() else {
            return Err(TextFault::Short);
        };
        let vector = read_vector(&line)?;
        vectors.push(vector)?;
    }
    Ok(vectors)
}

/// Reads a line of a word and a count.
fn read_count(line: &TextLine<'_>, word: &[u8]) -> Result<u8, TextFault>
    ensures ok { IfOk result (λ count. IsCountLine word.now count (line_of line.now)) }
    ensures at_least { IfOk result (λ count. 5 ≤ count) }
    ensures at_most { IfOk result (λ count. count ≤ 64) }
    ensures fault { IfErr result (λ e. IsFaultOf (count_of word.now) (line_of line.now) e) }
{
    let Some(field) = count_field(line.content, word) else {
        return Err(TextFault::BadLine { line: line.number });
    };
    let Some(count) = number(field) else {
        return Err(TextFault::BadNumber { line: line.number });
    };
    if !is_small(&count) {
        return Err(TextFault::TooLarge { line: line.number });
    }
    if !(5..=64).contains(&count) {
        return Err(TextFault::Count { line: line.number });
    }
    Ok(count as u8)
}

/// The one field behind a word.
fn count_field<'a>(content: &'a [u8], word: &[u8]) -> Option<&'a [u8]>
    ensures { MatchOption result ((ns : List (List ℕ)) → ¬ (HasFields (count_of word.now) (fields content.now) ns))
        (λ field. fields content.now ≡ word.now ∷ field.now ∷ []) }
{
    let mut fields = Fields::new(content);
    let first = fields.take_field()?;
    let second = fields.take_field()?;
    if first == word && fields.take_field().is_none() {
        Some(second)
    } else {
        None
    }
}

/// Reads a line of four numbers.
fn read_vector(line: &TextLine<'_>) -> Result<Vec4, TextFault>
    ensures { MatchResult result (λ v. IsVectorLine (line_of line.now) v) (λ e. IsFaultOf four_numbers (line_of line.now) e) }
{
    let Some((a, b, c, d)) = four_fields(line.content) else {
        return Err(TextFault::BadLine { line: line.number });
    };
    let Some(vector) = four_numbers(a, b, c, d) else {
        return Err(TextFault::BadNumber { line: line.number });
    };
    if !are_small(&vector) {
        return Err(TextFault::TooLarge { line: line.number });
    }
    Ok(vector)
}

/// The fields of a line of four.
fn four_fields(content: &[u8]) -> Option<(&[u8], &[u8], &[u8], &[u8])>
    ensures { MatchOption result ((ns : List (List ℕ)) → ¬ (HasFields four_numbers (fields content.now) ns))
        (λ q. fields content.now ≡ q.0.now ∷ q.1.now ∷ q.2.now ∷ q.3.now ∷ []) }
{
    let mut fields = Fields::new(content);
    let a = fields.take_field()?;
    let b = fields.take_field()?;
    let c = fields.take_field()?;
    let d = fields.take_field()?;
    if fields.take_field().is_some() {
        return None;
    }
    Some((a, b, c, d))
}
