//! The field of 256 codes of FIPS 197: polynomials over the field of two elements, reduced by x^8 + x^4 + x^3 + x + 1.
#![tactic(auto)]

mod tables;

ghost use Rattle.std.specs.Prelude.{◌≡◌, ◌<◌, ◌≤◌, ◌⊎◌, refl};
ghost use Rattle.field256.specs.Gf256.{arithmetic, inverted};
ghost use Rattle.field256.specs.Laws;

use field::Field;
use tables::{inverse_of, logarithm, power_of_three};

/// The operation's answer to two codes, which are the bytes, and 0 to anything else.
fn on_codes<O: FnOnce(u16, u16) -> u16 + Drop>(a: u16, b: u16, operation: O) -> u16
    requires callable { a < 256 → b < 256 → O.pre operation a b }
    ensures codes { a < 256 → b < 256 → O.post operation a b result }
    ensures others { (256 ≤ a) ⊎ (256 ≤ b) → result ≡ 0 }
{
    if a < 256 && b < 256 {
        operation(a, b)
    } else {
        0
    }
}

/// The field whose codes are the bytes, each the polynomial of which its bits are the coefficients.
pub struct Field256;

/// The operations of polynomials, by tables.
impl Field for Field256 {
    /// Every byte is a code.
    const SIZE: u32 = 256;

    /// So a code takes one byte.
    const WIDTH: usize = 1;

    ghost SIZE = { 256 };

    ghost WIDTH = { 1 };

    ghost arithmetic = { arithmetic };

    ghost inverted = { inverted };

    ghost size_law = { refl };

    ghost width_law = { refl };

    ghost laws = { Laws.laws };

    /// Coefficients are added each by itself, modulo 2.
    fn sum(a: u16, b: u16) -> u16 {
        on_codes(a, b, |a, b| a ^ b)
    }

    /// Every element is its own negative, so a difference is a sum.
    fn difference(a: u16, b: u16) -> u16 {
        Self::sum(a, b)
    }

    /// The power of the sum of the logarithms; that of the code 0 is so large that the power is then 0.
    #[tactic(auto, using(crate::proofs::Logarithms::by_logarithms))]
    fn product(a: u16, b: u16) -> u16 {
        on_codes(a, b, |a, b| {
            u16::from(power_of_three(logarithm(a as u8) + logarithm(b as u8)))
        })
    }

    /// The inverse is read from its table.
    fn inverse(a: u16) -> u16 {
        if a < 256 {
            u16::from(inverse_of(a as u8))
        } else {
            0
        }
    }
}
