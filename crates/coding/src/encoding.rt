// What each board holds: its fragment of a block, and its share of a commitment vector.
ghost use Rattle.std.specs.Prelude.{◌≡◌, ◌*◌, ◌≤◌, true, ◌&&◌, ◌==◌, ◌++◌, length, drop, OnOk, OnErr};
ghost use Rattle.field.specs.Laws.{width};
ghost use Rattle.shape.specs.Lengths.{is_board, row_length};
ghost use Rattle.coding.specs.Code.{coded, SharesFixVectors};
ghost use Rattle.coding.specs.Shaped.{answered, fragment_fits, share_fits, fragments_fit, fragment_of, share_of, fragments_of, fragments_length};

use crate::pieces::write_pieces;
use elements::{piece_at, write_element};
use field::Field;
use polynomial::value_at;
use shape::Shape;

/// Why a fragment, a share or a commitment vector is not made.
#[derive(Clone, Copy, PartialEq, Eq, Debug, Drop)]
pub enum Unencodable {
    /// There is no such board.
    NoBoard,
    /// A length does not fit.
    Length,
}

/// Writes, for each of `rows` rows of `k` bytes of the source, its value at `code`. A row that the source's end cuts counts as filled up with zeros.
fn encode_rows<F: Field>(k: usize, rows: usize, source: &[u8], code: u16, part: &mut [u8])
    requires { length part.old ≡ rows * width F.arithmetic }
    ensures { part.new ≡ coded F.arithmetic k rows source.now code }
{
    write_pieces(part, F::WIDTH, rows, |i, element| {
        let _ = write_element::<F>(element, 0, value_at::<F>(piece_at(source, k, i), code));
    });
}

/// Writes what a board holds of a source of `bytes` bytes in `rows` rows: a fragment and a share differ in these sizes alone.
fn encode<F: Field>(
    shape: Shape,
    bytes: usize,
    rows: usize,
    source: &[u8],
    board: u16,
    part: &mut [u8],
) -> Result<(), Unencodable>
    requires { rows ≤ 512 }
    ensures answer { result ≡ answered (is_board shape.faults board && length source.now == bytes && length part.old == rows * width F.arithmetic) (is_board shape.faults board) }
    ensures part { OnOk result (part.new ≡ coded F.arithmetic (row_length shape.faults) rows source.now board) }
    ensures kept { OnErr result (part.new ≡ part.old) }
{
    if !(1..=shape.boards()).contains(&usize::from(board)) {
        return Err(Unencodable::NoBoard);
    }
    if source.len() != bytes || part.len() != rows * F::WIDTH {
        return Err(Unencodable::Length);
    }
    encode_rows::<F>(shape.row_bytes(), rows, source, board, part);
    Ok(())
}

/// Writes a board's fragment of a block into its part, and leaves it as found where there is no such board or a length does not fit.
pub fn encode_fragment<F: Field>(
    shape: Shape,
    block: &[u8],
    board: u16,
    part: &mut [u8],
) -> Result<(), Unencodable>
    ensures answer { result ≡ answered (fragment_fits F.arithmetic shape block.now board part.old) (is_board shape.faults board) }
    ensures part { OnOk result (part.new ≡ fragment_of F.arithmetic shape block.now board) }
    ensures kept { OnErr result (part.new ≡ part.old) }
{
    encode::<F>(shape, shape.block_bytes(), shape.rows, block, board, part)
}

/// Writes a board's share of a commitment vector into its part, and leaves it as found where there is no such board or a length does not fit.
pub fn encode_share<F: Field>(
    shape: Shape,
    vector: &[u8],
    board: u16,
    part: &mut [u8],
) -> Result<(), Unencodable>
    ensures answer { result ≡ answered (share_fits F.arithmetic shape vector.now board part.old) (is_board shape.faults board) }
    ensures part { OnOk result (part.new ≡ share_of F.arithmetic shape vector.now board) }
    ensures kept { OnErr result (part.new ≡ part.old) }
    ensures fixes { SharesFixVectors F.arithmetic shape.faults }
{
    let rows = shape.share_rows();
    encode::<F>(shape, shape.vector_bytes(), rows, vector, board, part)
}

/// Writes every board's fragment of a block straight into its own part of the front of `memory`, board 1's first, and leaves the memory as found where a length does not fit.
pub fn encode_fragments<F: Field>(
    shape: Shape,
    block: &[u8],
    memory: &mut [u8],
) -> Result<(), Unencodable>
    ensures answer { result ≡ answered (fragments_fit F.arithmetic shape block.now memory.old) true }
    ensures memory { OnOk result (memory.new ≡ fragments_of F.arithmetic shape block.now ++ drop (fragments_length F.arithmetic shape) memory.old) }
    ensures kept { OnErr result (memory.new ≡ memory.old) }
{
    let size = shape.fragment_bytes::<F>();
    let count = shape.boards();
    if block.len() != shape.block_bytes() || memory.len() < count * size {
        return Err(Unencodable::Length);
    }
    let k = shape.row_bytes();
    write_pieces(memory, size, count, |i, part| {
        encode_rows::<F>(k, shape.rows, block, i as u16 + 1, part)
    });
    Ok(())
}
