//! The polynomials through many rows of points at the same codes, by a Lagrange basis.
ghost use Rattle.std.specs.Prelude.{◌≤◌};

use crate::MOST;
use crate::codes::is_admitted;
use crate::differences::basis_row;
use field::Field;
use std::array;

/// A code of a basis, and the coefficients of the polynomial that is 1 there and 0 at the other codes.
#[derive(Clone, Copy, Default)]
struct Entry {
    code: u16,
    row: [u16; MOST],
}

/// For a set of codes, what turns the values there into the coefficients of the polynomial that has them: made once, and used for every row.
#[derive(Clone, Copy)]
pub struct Basis {
    count: usize,
    entries: [Entry; MOST],
    // The entries that count are the first ones.
    ghost few: { count ≤ 6 },
}

impl Basis {
    ghost use Rattle.std.specs.Prelude.{◌≡◌, ℕ, ◌<◌, true, false, List, IsSomeAnd, MatchOption};
    ghost use Rattle.polynomial.specs.Interpolation.{admitted, answered, codes_of, rows_of, stands_at, values_of, BasisOf, Solves};
    ghost use Rattle.polynomial.specs.Polynomial.{column, dot, Codes, Distinct};

    /// The basis at these codes, or none unless they are one to six codes of the field in rising order.
    pub fn new<F: Field>(codes: &[u16]) -> Option<Basis>
        ensures { MatchOption result (admitted F.arithmetic codes.now ≡ false) (λ b. (admitted F.arithmetic codes.now ≡ true) × BasisOf F.arithmetic F.inverted codes.now b) }
    {
        if !is_admitted::<F>(codes) {
            return None;
        }
        let mut entries = [Entry::default(); MOST];
        for (j, code) in codes.iter().enumerate() {
            entries[j] = Entry {
                code: *code,
                row: basis_row::<F>(codes, j),
            };
        }
        Some(Basis {
            count: codes.len(),
            entries,
        })
    }

    /// The coefficients, as codes, of the polynomial through the points (a code, the value there), in the first places; none unless the points stand at the basis' codes, in their order.
    pub fn interpolate<F: Field>(&self, points: &[(u16, u16)]) -> Option<[u16; MOST]>
        ensures is { result ≡ answered F.arithmetic self.now points.now }
        ensures through { (xs : List ℕ) → BasisOf F.arithmetic F.inverted xs self.now → codes_of points.now ≡ xs → Codes F.arithmetic xs → Distinct xs → Codes F.arithmetic (values_of points.now) → IsSomeAnd result (Solves F.arithmetic F.inverted xs (values_of points.now)) }
    {
        if self.covers(points) {
            Some(array::from_fn(|i| self.coefficient::<F>(points, i)))
        } else {
            None
        }
    }

    /// Whether the points stand at the basis' codes, in their order.
    fn covers(&self, points: &[(u16, u16)]) -> bool
        ensures { result ≡ stands_at self.now points.now }
    {
        let entries = &self.entries[..self.count];
        points.len() == entries.len()
            && points
                .iter()
                .zip(entries)
                .all(|(point, entry)| point.0 == entry.code)
    }

    /// The coefficient at `i`: the sum of the values, each times what its row of the basis has there.
    fn coefficient<F: Field>(&self, points: &[(u16, u16)], i: usize) -> u16
        requires { i < 6 }
        ensures { result ≡ dot F.arithmetic (values_of points.now) (column i (rows_of self.now)) }
    {
        points
            .iter()
            .zip(&self.entries)
            .fold(0, |sum, (point, entry)| {
                F::sum(sum, F::product(point.1, entry.row[i]))
            })
    }
}
