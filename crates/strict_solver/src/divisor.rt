//! Division without a remainder.
ghost use Rattle.std.specs.Bool.{OnTrue};
ghost use Rattle.std.specs.Prelude.{◌≡◌, ◌^◌, ◌<◌, pos, ◌<ℤ◌, ◌*ℤ◌, unsigned_abs, IfSome};

/// The numbers of a basis are below this in size.
pub const NUMBER_LIMIT: u64 = 1 << 30;

/// A number to divide by, with what its quotients are guessed from.
#[derive(Clone, Copy, Drop)]
pub struct Divisor {
    /// The number.
    pub number: i64,
    /// How often 2 divides it.
    shift: u32,
    /// What is left then, inverted modulo 2^64.
    inverse: i64,
}

/// The inverse of an odd number modulo 2^64, by Newton's steps, each of which doubles the digits that are right.
fn inverse(odd: i64) -> i64 {
    let mut inverse = odd;
    for _step in 0..5 {
        let product = odd.wrapping_mul(inverse);
        inverse = inverse.wrapping_mul(2i64.wrapping_sub(product));
    }
    inverse
}

/// Whether the quotient times the number is the dividend.
#[inline]
fn is_quotient(number: i64, quotient: i64, dividend: i64) -> bool
    requires number { unsigned_abs number < 2 ^ 30 }
    requires quotient { unsigned_abs quotient < 2 ^ 30 }
    ensures { OnTrue result (number *ℤ quotient ≡ dividend) }
{
    number * quotient == dividend
}

impl Divisor {
    /// A divisor.
    pub fn new(number: i64) -> Divisor
        ensures { result.number ≡ number }
    {
        let shift = number.trailing_zeros() & 63;
        Divisor {
            number,
            shift,
            inverse: inverse(number >> shift),
        }
    }

    /// The quotient, where there is no remainder and it is below 2^30 in size. It is guessed as if there were
    /// none, and then tested.
    #[inline]
    pub fn quotient(&self, dividend: i64) -> Option<i64>
        requires { unsigned_abs self.now.number < 2 ^ 30 }
        ensures product { IfSome result (λ z. self.now.number *ℤ z ≡ dividend) }
        ensures small { IfSome result (λ z. unsigned_abs z < 2 ^ 30) }
    {
        let guess = (dividend >> (self.shift & 63)).wrapping_mul(self.inverse);
        if guess.unsigned_abs() < NUMBER_LIMIT && is_quotient(self.number, guess, dividend) {
            return Some(guess);
        }
        None
    }
}
