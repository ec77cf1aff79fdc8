// Which boards a round does without, and how many rows a design takes.
ghost use Rattle.std.specs.Prelude.{◌≡◌, ℕ, ◌*◌, ◌<◌, ◌≤◌, Bool, not, IfOk, count_by};
ghost use Rattle.shape.specs.Lengths.{board_count};
ghost use Rattle.walkthrough.specs.Taken.{taken, passing, AnswersAs, remaining};

use shape::Shape;
use std::alloc::{AllocError, Global};

/// Which t boards are taken away.
#[derive(Clone, Copy)]
pub(crate) enum Away {
    /// Boards 1 to t.
    Lowest,
    /// The last t boards.
    Highest,
    /// Boards t + 1 to 2t.
    Middle,
    /// Boards 3, 6 and so on.
    EveryThird,
}

impl Away {
    /// Whether the board is taken away where the shape's t boards are.
    pub(crate) fn takes(self, shape: Shape, board: u16) -> bool
        ensures { result ≡ taken self shape.faults board }
    {
        let board = usize::from(board);
        match self {
            Away::Lowest => board <= shape.faults,
            Away::Highest => board > 2 * shape.faults + 1,
            Away::Middle => (shape.faults + 1..=2 * shape.faults).contains(&board),
            Away::EveryThird => board % 3 == 0,
        }
    }
}

/// The boards of a round: those whose fragments may be used, and those that are left out.
#[derive(Drop)]
pub(crate) struct Sorted {
    pub(crate) usable: Vec<u16>,
    pub(crate) left_out: Vec<u16>,
}

impl Sorted {
    /// Sorts the boards of a shape, in rising order, by a test of each.
    pub(crate) fn by<T: Fn(u16) -> bool>(
        heap: Global,
        shape: Shape,
        is_usable: T,
    ) -> Result<Sorted, AllocError>
        requires callable { T.IsAlwaysCallable is_usable }
        ensures usable { (test : ℕ → Bool) → AnswersAs T.Fn is_usable test (board_count shape.faults) → IfOk result (λ s. s.usable.items ≡ passing test (board_count shape.faults)) }
        ensures left { (test : ℕ → Bool) → AnswersAs T.Fn is_usable test (board_count shape.faults) → IfOk result (λ s. s.left_out.items ≡ passing (λ j. not (test j)) (board_count shape.faults)) }
    {
        let mut sorted = Sorted {
            usable: Vec::new(heap),
            left_out: Vec::new(heap),
        };
        for board in 1..=last_board(shape) {
            if is_usable(board) {
                sorted.usable.push(board)?;
            } else {
                sorted.left_out.push(board)?;
            }
        }
        Ok(sorted)
    }
}

/// The number of a shape's last board.
pub(crate) fn last_board(shape: Shape) -> u16
    ensures { result ≡ board_count shape.faults }
{
    shape.boards() as u16
}

/// Sorts the boards of a shape by whether they are taken away.
pub(crate) fn present(heap: Global, away: Away, shape: Shape) -> Result<Sorted, AllocError>
    ensures { IfOk result (λ s. s.usable.items ≡ remaining away shape.faults (board_count shape.faults)) }
{
    Sorted::by(heap, shape, |board| !away.takes(shape, board))
}

/// How many rows of `row` bytes hold `length` bytes: at least one, and no more than needed.
pub(crate) fn rows_for(length: usize, row: usize) -> usize
    requires { 0 < row }
    ensures some { 1 ≤ result }
    ensures holds { length ≤ result * row }
    ensures least { (k : ℕ) → 1 ≤ k → length ≤ k * row → result ≤ k }
{
    length.div_ceil(row).max(1)
}

/// How many of the answers are yes.
pub(crate) fn yes_count(answers: &[bool]) -> usize
    ensures { result ≡ count_by (λ b. b) answers.now }
{
    answers.iter().filter(|answer| **answer).count()
}
