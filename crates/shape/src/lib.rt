//! The lengths of a dispersal: all of them follow from how many faulty boards it tolerates and how many rows its blocks have.
#![tactic(auto)]

ghost use Rattle.std.specs.Prelude.{◌≡◌, ◌≤◌, false, MatchOption};
ghost use Rattle.field.specs.Laws.{width};
ghost use Rattle.shape.specs.Lengths.{in_range, board_count, row_length, block_length, fragment_length, vector_length, share_rows, share_length};

use field::Field;

/// t, how many faulty boards are tolerated, and R, how many rows a block has; within their ranges wherever there is a value of this type.
#[derive(Clone, Copy, PartialEq, Eq, Debug)]
pub struct Shape {
    /// t, 1 to 5.
    pub faults: usize,
    /// R, 1 to 512.
    pub rows: usize,
    ghost faults_least: { 1 ≤ faults },
    ghost faults_most: { faults ≤ 5 },
    ghost rows_least: { 1 ≤ rows },
    ghost rows_most: { rows ≤ 512 },
}

impl Shape {
    /// The shape that tolerates `faults` boards with blocks of `rows` rows, or none where one is outside its range.
    pub fn new(faults: usize, rows: usize) -> Option<Shape>
        ensures { MatchOption result (in_range faults rows ≡ false) (λ s. (s.faults ≡ faults) × (s.rows ≡ rows)) }
    {
        if (1..=5).contains(&faults) && (1..=512).contains(&rows) {
            Some(Shape { faults, rows })
        } else {
            None
        }
    }

    /// n, the number of boards.
    pub fn boards(self) -> usize
        ensures { result ≡ board_count self.faults }
    {
        3 * self.faults + 1
    }

    /// t + 1, the bytes of a row, and how many fragments give a block back.
    pub fn row_bytes(self) -> usize
        ensures { result ≡ row_length self.faults }
    {
        self.faults + 1
    }

    /// K, the bytes of a block.
    pub fn block_bytes(self) -> usize
        ensures { result ≡ block_length self.faults self.rows }
    {
        self.rows * self.row_bytes()
    }

    /// S, the bytes of a fragment.
    pub fn fragment_bytes<F: Field>(self) -> usize
        ensures { result ≡ fragment_length (width F.arithmetic) self.rows }
    {
        self.rows * F::WIDTH
    }

    /// V, the bytes of a commitment vector.
    pub fn vector_bytes(self) -> usize
        ensures { result ≡ vector_length self.faults }
    {
        self.boards() * 32
    }

    /// Q, the rows of a commitment vector that is filled up with zero bytes.
    pub fn share_rows(self) -> usize
        ensures { result ≡ share_rows self.faults }
    {
        (self.vector_bytes() + self.faults) / self.row_bytes()
    }

    /// G, the bytes of a share.
    pub fn share_bytes<F: Field>(self) -> usize
        ensures { result ≡ share_length (width F.arithmetic) self.faults }
    {
        self.share_rows() * F::WIDTH
    }
}
