//! Remainders by one divisor, without a division for each.
ghost use Rattle.std.specs.Prelude.{◌≡◌, ◌*◌, ◌/◌, ◌%◌, ◌^◌, ◌≤◌};

use std::marker::Model;

/// A divisor and its reciprocal, times 2^64 and rounded down. Clauses see the divisor.
#[derive(Drop)]
pub struct Divisor {
    value: u64,
    reciprocal: u64,
}

impl Model for Divisor {
    ghost use Rattle.std.specs.Prelude.{ℕ};
    ghost use Rattle.sst_base.specs.Reciprocal.{IsReciprocal};

    ghost Value = { ℕ };

    ghost view = { λ d. d.value };

    ghost invariant = { λ d. IsReciprocal d.value d.reciprocal };
}

impl Divisor {
    /// Makes a divisor of a number, at least 1.
    pub fn new(value: u64) -> Divisor
        requires { 1 ≤ value }
        ensures { result ≡ value }
    {
        Divisor {
            value,
            reciprocal: u64::MAX / value,
        }
    }

    /// Returns the divisor.
    #[inline(always)]
    pub fn get(&self) -> u64
        ensures { result ≡ self.now }
    {
        self.value
    }

    /// Returns the remainder of a number.
    #[inline(always)]
    pub fn remainder(&self, number: u64) -> u64
        ensures { result ≡ number % self.now }
    {
        // The quotient, or one less.
        let quotient = high_product(number, self.reciprocal);
        let rest = number - quotient * self.value;
        if rest < self.value {
            rest
        } else {
            rest - self.value
        }
    }
}

// The high 64 bits of a product.
#[inline(always)]
fn high_product(a: u64, b: u64) -> u64
    ensures { result ≡ a * b / 2 ^ 64 }
{
    ((u128::from(a) * u128::from(b)) >> 64) as u64
}
