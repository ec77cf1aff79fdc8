// The fragments of all boards, as they stand in one memory.
ghost use Rattle.std.specs.Prelude.{◌≡◌, ◌/◌, ◌↔◌, length, IsTrue, IsSome, IfSome};
ghost use Rattle.field.specs.Laws.{width};
ghost use Rattle.elements.specs.Element.{Elements};
ghost use Rattle.coding.specs.Decoding.{held};
ghost use Rattle.coding.specs.Shaped.{fragments_length};

use elements::{overrun, piece_at};
use field::Field;
use shape::Shape;
use std::marker::PhantomData;

/// The fragments of all boards of a shape, board 1's first: their length fits wherever there is a value of this type.
#[derive(Drop)]
pub(crate) struct Fragments<'a, F: Field> {
    pub(crate) shape: Shape,
    pub(crate) bytes: &'a [u8],
    field: PhantomData<F>,
    ghost long: { length bytes.now ≡ fragments_length F.arithmetic shape },
}

impl<'a, F: Field> Fragments<'a, F> {
    /// The fragments that stand in `bytes`, or none where its length does not fit.
    pub(crate) fn new(shape: Shape, bytes: &'a [u8]) -> Option<Fragments<'a, F>>
        ensures fits { IsSome result ↔ (length bytes.now ≡ fragments_length F.arithmetic shape) }
        ensures shape { IfSome result (λ f. f.shape ≡ shape) }
        ensures bytes { IfSome result (λ f. f.bytes.now ≡ bytes.now) }
    {
        if bytes.len() != shape.boards() * shape.fragment_bytes::<F>() {
            return None;
        }
        Some(Fragments {
            shape,
            bytes,
            field: PhantomData,
        })
    }

    /// The fragment of a board.
    pub(crate) fn of(&self, board: u16) -> &'a [u8]
        ensures { result.now ≡ held F.arithmetic self.now.shape self.now.bytes.now board }
    {
        let size = self.shape.fragment_bytes::<F>();
        piece_at(self.bytes, size, usize::from(board).saturating_sub(1))
    }

    /// Whether the elements of a board's fragment are codes.
    pub(crate) fn holds_codes(&self, board: u16) -> bool
        ensures { let fragment = held F.arithmetic self.now.shape self.now.bytes.now board in IsTrue result ↔ Elements F.arithmetic fragment (length fragment / width F.arithmetic) }
    {
        overrun::<F>(self.of(board)).is_none()
    }
}
