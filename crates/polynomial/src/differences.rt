//! The polynomial through given points, by divided differences after Newton.
ghost use Rattle.std.specs.Prelude.{◌≡◌, ◌<◌, ◌≤◌, length, take};
ghost use Rattle.polynomial.specs.Polynomial.{interpolated, lifted, slope as divided_difference, slopes, unit};

use crate::MOST;
use field::Field;

/// The divided difference of two points: what the value gains for each step of the code.
fn slope<F: Field>(from: (u16, u16), to: (u16, u16)) -> u16
    ensures { result ≡ divided_difference F.arithmetic F.inverted from to }
{
    let run = F::difference(to.0, from.0);
    let rise = F::difference(to.1, from.1);
    F::product(F::inverse(run), rise)
}

/// Each of the values at the codes becomes its divided difference from the point `from`.
fn to_slopes<F: Field>(from: (u16, u16), codes: &[u16], values: &mut [u16])
    requires { length values.old ≡ length codes.now }
    ensures { values.new ≡ slopes F.arithmetic F.inverted from codes.now values.old }
{
    for (i, code) in codes.iter().enumerate() {
        values[i] = slope::<F>(from, (*code, values[i]));
    }
}

/// The value v at `x` and the coefficients of Q become the coefficients of v + (X - x) Q, the step after Newton.
fn lift<F: Field>(x: u16, coefficients: &mut [u16])
    ensures { coefficients.new ≡ lifted F.arithmetic x coefficients.old }
{
    for i in 1..coefficients.len() {
        coefficients[i - 1] = F::difference(coefficients[i - 1], F::product(x, coefficients[i]));
    }
}

/// The values at the codes become the coefficients of the polynomial that has them.
fn solve<F: Field>(codes: &[u16], values: &mut [u16])
    requires { length values.old ≡ length codes.now }
    ensures { values.new ≡ interpolated F.arithmetic F.inverted codes.now values.old }
{
    if let [x, later @ ..] = codes {
        let from = (*x, values[0]);
        let rest = &mut values[1..];
        to_slopes::<F>(from, later, rest);
        solve::<F>(later, rest);
        lift::<F>(*x, values);
    }
}

/// The row of the Lagrange basis at `j`: the coefficients of the polynomial that is 1 at that code, and 0 at the others.
pub(crate) fn basis_row<F: Field>(codes: &[u16], j: usize) -> [u16; MOST]
    requires there { j < length codes.now }
    requires few { length codes.now ≤ 6 }
    ensures { take (length codes.now) result ≡ interpolated F.arithmetic F.inverted codes.now (unit (length codes.now) j) }
{
    let mut row = [0; MOST];
    row[j] = 1;
    solve::<F>(codes, &mut row[..codes.len()]);
    row
}
