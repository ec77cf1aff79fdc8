// How t + 1 fragments give a block back.
ghost use Rattle.coding.specs.Decoding.{Decodes};

use crate::chosen::{Chosen, Rows};
use field::Field;
use shape::Shape;
use std::error::Error;
use std::fmt;

/// Why fragments do not decode to a block.
#[derive(Clone, Copy, PartialEq, Eq, Debug, Drop)]
pub enum Undecodable {
    /// A length does not fit, or the boards are not t + 1 boards in rising order.
    Unfit,
    /// An element of a chosen board's fragment is not a code of the field.
    Overrun,
    /// The fragments are those of no block: a coefficient is not a byte.
    Unreadable,
}

impl fmt::Display for Undecodable {
    ghost use Rattle.std.specs.Prelude.{Some};
    ghost use Rattle.coding.specs.Decoding.{reason};

    ghost output = { λ u. Some (reason u) };

    ghost styled_output = { λ u spec. Some (reason u) };

    fn fmt<W: fmt::Write>(&self, f: &mut fmt::Formatter<W>) -> fmt::Result {
        f.write_str(match self {
            Undecodable::Unfit => "a length or the boards do not fit",
            Undecodable::Overrun => "a fragment holds a number that the field does not have",
            Undecodable::Unreadable => "the fragments are those of no block",
        })
    }
}

impl Error for Undecodable {}

/// Decodes a block from the fragments of t + 1 boards, given in rising order; `fragments` holds a fragment for each board, and those of other boards are not looked at.
pub fn decode<F: Field>(
    shape: Shape,
    fragments: &[u8],
    boards: &[u16],
    block: &mut [u8],
) -> Result<(), Undecodable>
    ensures { Decodes F.arithmetic F.inverted shape fragments.now boards.now block.old result block.new }
{
    let chosen = Chosen::<F>::new(shape, fragments, boards).ok_or(Undecodable::Unfit)?;
    if block.len() != shape.block_bytes() {
        return Err(Undecodable::Unfit);
    }
    let rows = Rows::new(chosen).ok_or(Undecodable::Overrun)?;
    if !rows.are_bytes() {
        return Err(Undecodable::Unreadable);
    }
    rows.write_to(block);
    Ok(())
}
