// What the boards keep of a design.
ghost use Rattle.std.specs.Prelude.{◌≡◌, ◌↔◌, ◌-◌, ◌*◌, ◌<◌, ◌≤◌, ◌++◌, length, take, replicate, IsTrue, IfOk};
ghost use Rattle.coding.specs.Commitment.{entry, fragment_digest, vector_of};
ghost use Rattle.coding.specs.Decoding.{held};
ghost use Rattle.coding.specs.Shaped.{fragments_of, share_of};
ghost use Rattle.walkthrough.specs.Blocks.{block_of};
ghost use Rattle.elements.specs.Pieces.{piece};

use crate::choices::Sorted;
use coding::{commit, digest_of, encode_fragments, encode_share};
use elements::piece_at;
use field::Field;
use hash::Hash;
use shape::Shape;
use std::alloc::{AllocError, Global};
use std::marker::PhantomData;

/// What the boards keep of one design, over a field and by a hash.
#[derive(Drop)]
pub(crate) struct Kept<F: Field, D: Hash> {
    pub(crate) shape: Shape,
    /// The fragments of all boards, board 1's first.
    pub(crate) fragments: Vec<u8>,
    pub(crate) vector: Vec<u8>,
    /// Board 1's share of the vector.
    pub(crate) share: Vec<u8>,
    over: PhantomData<(F, D)>,
}

/// The design, filled up with zero bytes to `size` bytes.
fn fill_up(heap: Global, design: &[u8], size: usize) -> Result<Vec<u8>, AllocError>
    ensures { IfOk result (λ b. b.items ≡ take size design.now ++ replicate (size - length design.now) 0) }
{
    let mut block = Vec::from_slice(heap, design)?;
    block.resize(size, 0)?;
    Ok(block)
}

/// Where a board's fragment and entry stand among those of all boards.
fn index_of(board: u16) -> usize
    ensures { result ≡ board - 1 }
{
    usize::from(board).saturating_sub(1)
}

/// Whether a fragment's digest is its board's entry of the vector.
fn matches<D: Hash>(entry: &[u8], board: u16, fragment: &[u8]) -> bool
    ensures { IsTrue result ↔ (entry.now ≡ fragment_digest D.hashes board fragment.now) }
{
    entry == digest_of::<D>(board, fragment).as_slice()
}

impl<F: Field, D: Hash> Kept<F, D> {
    /// Gives each board its fragment of the design and its share of the vector.
    pub(crate) fn new(heap: Global, shape: Shape, design: &[u8]) -> Result<Self, AllocError>
        ensures shape { IfOk result (λ k. k.shape ≡ shape) }
        ensures cut { IfOk result (λ k. k.fragments.items ≡ fragments_of F.arithmetic shape (block_of shape design.now)) }
        ensures committed { IfOk result (λ k. k.vector.items ≡ vector_of D.hashes F.arithmetic shape k.fragments.items) }
        ensures shared { IfOk result (λ k. k.share.items ≡ share_of F.arithmetic shape k.vector.items 1) }
    {
        let block = fill_up(heap, design, shape.block_bytes())?;
        let mut fragments = vec![in heap; 0; shape.boards() * shape.fragment_bytes::<F>()]?;
        let mut vector = vec![in heap; 0; shape.vector_bytes()]?;
        let mut share = vec![in heap; 0; shape.share_bytes::<F>()]?;
        encode_fragments::<F>(shape, &block, &mut fragments).unwrap();
        commit::<F, D>(shape, &fragments, &mut vector).unwrap();
        encode_share::<F>(shape, &vector, 1, &mut share).unwrap();
        Ok(Kept {
            shape,
            fragments,
            vector,
            share,
            over: PhantomData,
        })
    }

    /// A board's fragment.
    pub(crate) fn fragment(&self, board: u16) -> &[u8]
        ensures { result.now ≡ held F.arithmetic self.now.shape self.now.fragments.items board }
    {
        piece_at(
            &self.fragments,
            self.shape.fragment_bytes::<F>(),
            index_of(board),
        )
    }

    /// A board's entry of the vector.
    pub(crate) fn entry(&self, board: u16) -> &[u8]
        ensures { result.now ≡ entry self.now.vector.items board }
    {
        piece_at(&self.vector, 32, index_of(board))
    }

    /// The digest of a board's fragment as it is now.
    pub(crate) fn digest(&self, board: u16) -> [u8; 32]
        ensures { result ≡ fragment_digest D.hashes board (held F.arithmetic self.now.shape self.now.fragments.items board) }
    {
        digest_of::<D>(board, self.fragment(board))
    }

    /// Sorts the boards by whether their fragments are good.
    pub(crate) fn examine(&self, heap: Global) -> Result<Sorted, AllocError> {
        Sorted::by(heap, self.shape, |board| {
            matches::<D>(self.entry(board), board, self.fragment(board))
        })
    }

    /// Turns every bit of the first byte of a board's fragment.
    pub(crate) fn damage(&mut self, board: u16) {
        let at = index_of(board) * self.shape.fragment_bytes::<F>();
        if let Some(byte) = self.fragments.get_mut(at) {
            *byte = !*byte;
        }
    }
}
