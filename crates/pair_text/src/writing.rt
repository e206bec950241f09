//! Pair text is written.
ghost use Rattle.std.specs.Prelude.{◌≡◌, ◌++◌, [], ◌∷◌, IfOk, OnOk, OnErr, string_bytes, flat_map};
ghost use Rattle.std.specs.Fmt.{signed_decimal};
ghost use Rattle.ntfe_model.specs.RunText.{vector_line, list_lines, pair_lines, spaced};
ghost use Rattle.ntfe_model.specs.PairText.{IsPairText};

use ntfe_model::{Pair, Vec4};
use std::alloc::{AllocError, Global};
use std::fmt::Write;

/// Appends the canonical lines of a pair. Want of memory leaves what was there as it was.
pub fn write_pair(alloc: Global, pair: &Pair, out: &mut Vec<u8>) -> Result<(), AllocError>
    ensures ok { OnOk result (out.new.items ≡ out.old.items ++ pair_lines pair.now) }
    ensures err { OnErr result (out.new.items ≡ out.old.items) }
    // The appended lines are a text of the pair, so `read_pair` gives the pair again.
    ensures text { IsPairText (pair_lines pair.now) pair.now }
{
    let mut text = String::new(alloc);
    append_list(&mut text, "vertices", pair.vertices())?;
    append_list(&mut text, "dual", pair.dual())?;
    out.extend_from_slice(text.as_bytes())
}

/// Appends the lines of one list.
fn append_list(text: &mut String, word: &str, vectors: &[Vec4]) -> Result<(), AllocError>
    ensures { OnOk result (string_bytes text.new ≡ string_bytes text.old ++ list_lines word.now vectors.now) }
{
    let count = vectors.len();
    write!(text, "{word} {count}\n")?;
    for vector in vectors {
        append_vector(text, vector)?;
    }
    Ok(())
}

/// Appends the line of a vector.
fn append_vector(text: &mut String, vector: &Vec4) -> Result<(), AllocError>
    ensures { OnOk result (string_bytes text.new ≡ string_bytes text.old ++ vector_line vector.now) }
{
    let x = vector.coordinates();
    append_four(text, x[0], x[1], x[2], x[3])
}

/// Appends the line of four numbers.
fn append_four(text: &mut String, a: i64, b: i64, c: i64, d: i64) -> Result<(), AllocError>
    ensures { OnOk result (string_bytes text.new ≡ string_bytes text.old ++ vector_line (record { x1 = a; x2 = b; x3 = c; x4 = d })) }
{
    write!(text, "{a}")?;
    append_spaced(text, b)?;
    append_spaced(text, c)?;
    append_spaced(text, d)?;
    text.push('\n')?;
    Ok(())
}

/// Appends a space and a number.
fn append_spaced(text: &mut String, number: i64) -> Result<(), AllocError>
    ensures { OnOk result (string_bytes text.new ≡ string_bytes text.old ++ spaced (signed_decimal number)) }
{
    write!(text, " {number}")
}
