// The commitment vector, by which a board's fragment is told from any other.
ghost use Rattle.std.specs.Prelude.{◌≡◌, ◌<◌, length, true, OnOk, OnErr};
ghost use Rattle.coding.specs.Commitment.{fragment_digest, vector_of, vector_fits};
ghost use Rattle.coding.specs.Shaped.{answered};

use crate::encoding::Unencodable;
use crate::fragments::Fragments;
use crate::pieces::write_pieces;
use field::Field;
use hash::Hash;
use shape::Shape;

/// The digest of a board's fragment.
pub fn digest_of<D: Hash>(_board: u16, fragment: &[u8]) -> [u8; 32]
    ensures { result ≡ fragment_digest D.hashes _board fragment.now }
{
    D::digest(fragment)
}

/// Writes the commitment vector of the fragments of all boards, and leaves the vector as found where a length does not fit.
pub fn commit<F: Field, D: Hash>(
    shape: Shape,
    fragments: &[u8],
    vector: &mut [u8],
) -> Result<(), Unencodable>
    ensures answer { result ≡ answered (vector_fits F.arithmetic shape fragments.now vector.old) true }
    ensures vector { OnOk result (vector.new ≡ vector_of D.hashes F.arithmetic shape fragments.now) }
    ensures kept { OnErr result (vector.new ≡ vector.old) }
{
    let held = Fragments::<F>::new(shape, fragments).ok_or(Unencodable::Length)?;
    if vector.len() != shape.vector_bytes() {
        return Err(Unencodable::Length);
    }
    let write = |i: usize, entry: &mut [u8]|
        requires board { i < 16 }
        requires room { length entry.now ≡ 32 }
    {
        let board = i as u16 + 1;
        entry.copy_from_slice(&digest_of::<D>(board, held.of(board)));
    };
    write_pieces(vector, 32, shape.boards(), write);
    Ok(())
}
