//! What frames of a kind look like: their senders and lengths, read off one table.
#![tactic(auto)]

ghost use Rattle.std.specs.Prelude.{◌≡◌, ◌+◌, ◌*◌, ◌≤◌};
ghost use Rattle.layout.specs.Kinds.{is_sender, digests, bytes, frame_length};

use field::Field;
use kind::Kind;
use shape::Shape;

/// The bytes of a digest.
pub const DIGEST_BYTES: usize = 32;

/// The bytes of a frame before its digests: its kind, its sender and how many digests it has.
pub const FRONT_BYTES: usize = 3;

/// The bytes of a frame that stand in no section: its front, and a count of two bytes.
pub const COUNT_BYTES: usize = 5;

/// The frames of one kind on a floor of one shape.
#[derive(Clone, Copy)]
pub struct Layout {
    /// How many boards and rows there are.
    pub shape: Shape,
    /// The kind.
    pub kind: Kind,
}

impl Layout {
    /// Whether a party sends such frames: the dealer, who is 0, or one of the boards.
    pub fn is_sender(self, sender: u8) -> bool
        ensures { result ≡ is_sender self.shape self.kind sender }
    {
        match self.kind {
            Kind::Send => sender == 0,
            _ => (1..=self.shape.boards()).contains(&usize::from(sender)),
        }
    }

    /// How many digests such a frame has.
    pub fn digests(self) -> usize
        ensures is { result ≡ digests self.shape self.kind }
        ensures few { result ≤ 16 }
    {
        match self.kind {
            Kind::Send | Kind::Echo | Kind::Ready => self.shape.boards(),
            Kind::Hash | Kind::Symbol => 0,
        }
    }

    /// How many bytes its digests have.
    pub fn vector_bytes(self) -> usize
        ensures is { result ≡ 32 * digests self.shape self.kind }
        ensures few { result ≤ 512 }
    {
        DIGEST_BYTES * self.digests()
    }

    /// How many bytes it has after its digests.
    pub fn payload_bytes<F: Field>(self) -> usize
        ensures is { result ≡ bytes F.arithmetic self.shape self.kind }
        ensures few { result ≤ 1024 }
    {
        match self.kind {
            Kind::Send | Kind::Symbol => self.shape.fragment_bytes::<F>(),
            Kind::Echo | Kind::Ready => 0,
            Kind::Hash => self.shape.share_bytes::<F>(),
        }
    }

    /// Where in it the bytes after its digests begin.
    pub fn payload_start(self) -> usize
        ensures is { result ≡ 5 + 32 * digests self.shape self.kind }
        ensures few { result ≤ 517 }
    {
        COUNT_BYTES + self.vector_bytes()
    }

    /// Its length.
    pub fn frame_bytes<F: Field>(self) -> usize
        ensures { result ≡ frame_length F.arithmetic self.shape self.kind }
    {
        self.payload_start() + self.payload_bytes::<F>()
    }
}
