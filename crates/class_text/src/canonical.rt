//! Numbers in canonical decimal: no leading zero, `-` before a negative one, `0` for zero.
ghost use Rattle.std.specs.Prelude.{◌≡◌, ◌≢◌, ℕ, ◌<◌, ◌≤◌, ◌^◌, true, false, ℤ, unsigned_abs, length, decimal, MatchOption};
ghost use Rattle.std.specs.Fmt.{signed_decimal};
ghost use Rattle.std.specs.Str.{all_ascii_digits};
ghost use Rattle.std.specs.Str.Parse.{digits_value};
ghost use Rattle.class_text.specs.Fields.{IsSize, IsHeight};

/// The number that at most 19 digits stand for; `None` where one is no digit.
fn value(digits: &[u8]) -> Option<u64>
    requires { length digits.now ≤ 19 }
    ensures { MatchOption result (all_ascii_digits digits.now ≡ false) (λ n. (all_ascii_digits digits.now ≡ true) × (n ≡ digits_value 10 digits.now)) }
{
    let mut size = 0u64;
    for digit in digits {
        if !digit.is_ascii_digit() {
            return None;
        }
        size = size * 10 + u64::from(*digit - b'0');
    }
    Some(size)
}

/// The number below 10^19 whose canonical decimal digits these are.
pub fn canonical(digits: &[u8]) -> Option<u64>
    ensures { MatchOption result ((n : ℕ) → n < 10 ^ 19 → digits.now ≢ decimal n) (λ n. (n < 10 ^ 19) × (digits.now ≡ decimal n)) }
{
    if digits.is_empty() || digits.len() > 19 {
        return None;
    }
    if digits[0] == b'0' && digits.len() > 1 {
        return None;
    }
    value(digits)
}

/// Whether these are the canonical decimal digits of a number of size less than 2^62 that is not below the least one.
fn is_size(digits: &[u8], least: u64) -> bool
    ensures when_true { result ≡ true → IsSize least digits.now }
    ensures when_false { result ≡ false → ¬ (IsSize least digits.now) }
{
    match canonical(digits) {
        Some(size) => size >= least && size < 1 << 62,
        None => false,
    }
}

/// Whether a field is a number of size less than 2^62 in canonical decimal.
pub fn is_height(field: &[u8]) -> bool
    ensures when_true { result ≡ true → IsHeight field.now }
    ensures when_false { result ≡ false → ¬ (IsHeight field.now) }
{
    if !field.is_empty() && field[0] == b'-' {
        is_size(&field[1..], 1)
    } else {
        is_size(field, 0)
    }
}
