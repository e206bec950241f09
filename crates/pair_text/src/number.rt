//! Numbers in fields.
ghost use Rattle.std.specs.Prelude.{◌≡◌, ◌↔◌, IsTrue, min, pos, negsuc, ◌≤ℤ◌, [], ◌∷◌, Any, option_map, MatchOption};
ghost use Rattle.ntfe_model.specs.Pairs.{IsSmall};
ghost use Rattle.ntfe_model.specs.PairText.{magnitude, number};
ghost use Rattle.pair_text.specs.Caps.{capped, HaveCapped};

use ntfe_model::Vec4;

/// The least size that is too large.
const LARGE: u16 = 1024;

/// The number that digits stand for, at most 1,024, where there are digits and nothing else.
fn magnitude(digits: &[u8]) -> Option<u16>
    ensures { result ≡ option_map (λ n. min n 1024) (magnitude digits.now) }
{
    if digits.is_empty() {
        return None;
    }
    let mut size = 0;
    for digit in digits {
        if !digit.is_ascii_digit() {
            return None;
        }
        size = (size * 10 + u16::from(*digit - b'0')).min(LARGE);
    }
    Some(size)
}

/// The number of a field, from -1,024 to 1,024, if the field is a number.
pub fn number(field: &[u8]) -> Option<i64>
    ensures { result ≡ option_map capped (number field.now) }
{
    match field {
        [b'+', digits @ ..] => magnitude(digits).map(i64::from),
        [b'-', digits @ ..] => magnitude(digits).map(|size| -i64::from(size)),
        _ => magnitude(field).map(i64::from),
    }
}

/// Whether a number has a size of at most 1,023.
pub fn is_small(number: &i64) -> bool
    ensures { IsTrue result ↔ ((negsuc 1022 ≤ℤ number.now) × (number.now ≤ℤ pos 1023)) }
{
    -i64::from(LARGE) < *number && *number < i64::from(LARGE)
}

/// The numbers of four fields, each from -1,024 to 1,024, if all are numbers.
pub fn four_numbers(a: &[u8], b: &[u8], c: &[u8], d: &[u8]) -> Option<Vec4>
    ensures { let ns = a.now ∷ b.now ∷ c.now ∷ d.now ∷ [] in
        MatchOption result (Any (λ n. number n ≡ None) ns) (λ v. HaveCapped ns v) }
{
    Some(Vec4::new([number(a)?, number(b)?, number(c)?, number(d)?]))
}

/// Whether all coordinates have a size of at most 1,023.
pub fn are_small(vector: &Vec4) -> bool
    ensures { IsTrue result ↔ IsSmall vector.now }
{
    let x = vector.coordinates();
    is_small(&x[0]) && is_small(&x[1]) && is_small(&x[2]) && is_small(&x[3])
}
