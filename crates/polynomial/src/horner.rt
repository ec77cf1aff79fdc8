// Values of polynomials.
ghost use Rattle.std.specs.Prelude.{◌≡◌};
ghost use Rattle.polynomial.specs.Polynomial.{eval};

use field::Field;

/// The value at `x` of the polynomial with the bytes of `row` for its coefficients, the constant first: Horner's rule.
pub fn value_at<F: Field>(row: &[u8], x: u16) -> u16
    ensures { result ≡ eval F.arithmetic row.now x }
{
    row.iter().rfold(0, |value, coefficient| {
        F::sum(u16::from(*coefficient), F::product(x, value))
    })
}
