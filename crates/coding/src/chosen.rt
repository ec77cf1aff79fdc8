// The states of decoding: fragments and chosen boards that fit, and then the rows that they give.
ghost use Rattle.std.specs.Prelude.{◌≡◌, ◌<◌, ◌↔◌, true, take, length, IsTrue, IsSome, IfSome};
ghost use Rattle.std.proofs.Props.{props};
ghost use Rattle.hash.specs.Bytes.{Bytes};
ghost use Rattle.polynomial.specs.Interpolation.{BasisOf};
ghost use Rattle.coding.specs.Decoding.{are_chosen, Sound};
ghost use Rattle.coding.specs.Shaped.{fragments_length, is_block};

use crate::fragments::Fragments;
use crate::pieces::write_pieces;
use elements::read_element;
use field::Field;
use polynomial::{Basis, rising};
use shape::Shape;

/// The fragments of all boards, and t + 1 boards in rising order whose fragments are looked at.
#[derive(Drop)]
pub(crate) struct Chosen<'a, F: Field> {
    fragments: Fragments<'a, F>,
    boards: &'a [u16],
    ghost chosen: { are_chosen fragments.shape boards.now ≡ true },
}

impl<'a, F: Field> Chosen<'a, F> {
    ghost use Rattle.coding.specs.Choice.{IsSound};

    /// The choice of these boards among those whose fragments stand in `fragments`, or none where a length does not fit or the boards are not t + 1 in rising order.
    pub(crate) fn new(shape: Shape, fragments: &'a [u8], boards: &'a [u16]) -> Option<Chosen<'a, F>>
        ensures fits { IsSome result ↔ ((length fragments.now ≡ fragments_length F.arithmetic shape) × (are_chosen shape boards.now ≡ true)) }
        ensures shape { IfSome result (λ c. c.fragments.shape ≡ shape) }
        ensures fragments { IfSome result (λ c. c.fragments.bytes.now ≡ fragments.now) }
        ensures boards { IfSome result (λ c. c.boards.now ≡ boards.now) }
    {
        let fragments = Fragments::new(shape, fragments)?;
        if boards.len() == shape.row_bytes() && rising(boards, 1, shape.boards() as u32 + 1) {
            Some(Chosen { fragments, boards })
        } else {
            None
        }
    }

    /// Whether the elements of the chosen boards' fragments are codes.
    fn holds_codes(&self) -> bool
        ensures { IsTrue result ↔ IsSound F.arithmetic self.now }
    {
        self.boards
            .iter()
            .all(|board| self.fragments.holds_codes(*board))
    }
}

/// The rows that the chosen boards' fragments give, by the basis at these boards.
#[derive(Drop)]
pub(crate) struct Rows<'a, F: Field> {
    chosen: Chosen<'a, F>,
    basis: Basis,
    ghost sound: { Sound F.arithmetic chosen.fragments.shape chosen.fragments.bytes.now chosen.boards.now } by { Prim.hlevel props },
    ghost based: { BasisOf F.arithmetic F.inverted chosen.boards.now basis },
}

impl<'a, F: Field> Rows<'a, F> {
    ghost use Rattle.coding.specs.Choice.{IsSound, points_at, row_at, rows_in};

    /// The rows that the chosen boards' fragments give, or none where an element there is not a code.
    pub(crate) fn new(chosen: Chosen<'a, F>) -> Option<Rows<'a, F>>
        ensures sound { IsSome result ↔ IsSound F.arithmetic chosen.entry }
        ensures of { IfSome result (λ r. r.chosen ≡ chosen.entry) }
    {
        if !chosen.holds_codes() {
            return None;
        }
        let basis = Basis::new::<F>(chosen.boards).unwrap();
        Some(Rows { chosen, basis })
    }

    /// The points of row `i`: each chosen board's number, and the value that its fragment has there.
    fn points(&self, i: usize) -> [(u16, u16); 6]
        requires { i < self.now.chosen.fragments.shape.rows }
        ensures { take (length self.now.chosen.boards.now) result ≡ points_at F.arithmetic self.now.chosen i }
    {
        let mut points = [(0, 0); 6];
        for (k, board) in self.chosen.boards.iter().enumerate() {
            let value = read_element::<F>(self.chosen.fragments.of(*board), i).unwrap();
            points[k] = (*board, value);
        }
        points
    }

    /// The coefficients of row `i`, in the first places.
    fn row(&self, i: usize) -> [u16; 6]
        requires { i < self.now.chosen.fragments.shape.rows }
        ensures { take (length self.now.chosen.boards.now) result ≡ row_at F.arithmetic F.inverted self.now.chosen i }
    {
        let points = self.points(i);
        self.basis
            .interpolate::<F>(&points[..self.chosen.boards.len()])
            .unwrap()
    }

    /// Whether every coefficient of row `i` is a byte.
    fn row_is_bytes(&self, i: usize) -> bool
        requires { i < self.now.chosen.fragments.shape.rows }
        ensures { IsTrue result ↔ Bytes (row_at F.arithmetic F.inverted self.now.chosen i) }
    {
        self.row(i)[..self.chosen.boards.len()]
            .iter()
            .all(|code| *code <= 255)
    }

    /// Whether every coefficient of every row is a byte.
    pub(crate) fn are_bytes(&self) -> bool
        ensures { IsTrue result ↔ Bytes (rows_in F.arithmetic F.inverted self.now.chosen) }
    {
        (0..self.chosen.fragments.shape.rows).all(|i| self.row_is_bytes(i))
    }

    /// Writes the coefficients of row `i`, which are bytes.
    fn write_row(&self, i: usize, part: &mut [u8])
        requires inside { i < self.now.chosen.fragments.shape.rows }
        requires bytes { Bytes (row_at F.arithmetic F.inverted self.now.chosen i) }
        requires room { length part.old ≡ length self.now.chosen.boards.now }
        ensures { part.new ≡ row_at F.arithmetic F.inverted self.now.chosen i }
    {
        for (k, code) in self.row(i)[..part.len()].iter().enumerate() {
            part[k] = *code as u8;
        }
    }

    /// Writes the coefficients of every row, which are bytes, as a block.
    #[tactic(auto, using(crate::proofs::Rows::bytes_row))]
    pub(crate) fn write_to(&self, block: &mut [u8])
        requires bytes { Bytes (rows_in F.arithmetic F.inverted self.now.chosen) }
        requires room { is_block self.now.chosen.fragments.shape block.old ≡ true }
        ensures { block.new ≡ rows_in F.arithmetic F.inverted self.now.chosen }
    {
        let count = self.chosen.boards.len();
        write_pieces(block, count, self.chosen.fragments.shape.rows, |i, part| {
            self.write_row(i, part)
        });
    }
}
