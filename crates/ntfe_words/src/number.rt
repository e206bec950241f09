//! Numbers in words.
ghost use Rattle.std.specs.Prelude.{◌≡◌, min, if◌then◌else◌};
ghost use Rattle.std.specs.Str.{all_ascii_digits};
ghost use Rattle.std.specs.Str.Parse.{digits_value};
ghost use Rattle.ntfe_words.specs.CommandLine.{number};

/// The greatest number of digits.
const MOST_DIGITS: usize = 10;

/// The least number that is too large for every option.
const TOO_LARGE: u64 = 1 << 32;

/// The number that digits stand for, at most 2^32, where there is nothing else.
fn magnitude(digits: &[u8]) -> Option<u64>
    ensures { result ≡ (if all_ascii_digits digits.now then Some (min (digits_value 10 digits.now) 4294967296) else None) }
{
    let mut size = 0;
    for digit in digits {
        if !digit.is_ascii_digit() {
            return None;
        }
        size = (size * 10 + u64::from(*digit - b'0')).min(TOO_LARGE);
    }
    Some(size)
}

/// The number of one to ten digits, if it is one from `low` to `high`.
pub fn number(text: &[u8], low: u32, high: u32) -> Option<u32>
    ensures { result ≡ number low high text.now }
{
    if text.is_empty() || text.len() > MOST_DIGITS {
        return None;
    }
    let size = magnitude(text)?;
    if u64::from(low) <= size && size <= u64::from(high) {
        Some(size as u32)
    } else {
        None
    }
}
