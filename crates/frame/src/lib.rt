//! Frames on the wire: what parties say to each other, and how it is written.
#![tactic(auto)]

ghost use Rattle.std.specs.Prelude.{◌≡◌};
ghost use Rattle.protocol.specs.Messages.{kind, sender};
ghost use Rattle.frame.specs.Frames.{message, vector, payload};

mod writing;

use kind::Kind;
pub use writing::write;

/// A frame, whose sections are parts of the bytes that it was read from.
#[derive(Clone, Copy, Debug, PartialEq, Eq)]
pub enum Frame<'a> {
    /// From the dealer: the commitment vector and the receiver's fragment.
    Send {
        vector: &'a [u8],
        fragment: &'a [u8],
    },
    /// From a board: the vector that it keeps.
    Echo {
        sender: u8,
        vector: &'a [u8],
    },
    /// From a board: a vector that enough others hold with.
    Ready {
        sender: u8,
        vector: &'a [u8],
    },
    /// From a board: its share of the vector.
    Hash {
        sender: u8,
        share: &'a [u8],
    },
    /// From a board: its fragment.
    Symbol {
        sender: u8,
        fragment: &'a [u8],
    },
}

impl<'a> Frame<'a> {
    /// Its kind.
    pub fn kind(self) -> Kind
        ensures { result ≡ kind (message self.entry) }
    {
        match self {
            Frame::Send { .. } => Kind::Send,
            Frame::Echo { .. } => Kind::Echo,
            Frame::Ready { .. } => Kind::Ready,
            Frame::Hash { .. } => Kind::Hash,
            Frame::Symbol { .. } => Kind::Symbol,
        }
    }

    /// Who sent it: the dealer, who is 0, or a board.
    pub fn sender(self) -> u8
        ensures { result ≡ sender (message self.entry) }
    {
        match self {
            Frame::Send { .. } => 0,
            Frame::Echo { sender, .. }
            | Frame::Ready { sender, .. }
            | Frame::Hash { sender, .. }
            | Frame::Symbol { sender, .. } => sender,
        }
    }

    /// Its digests.
    fn vector(self) -> &'a [u8]
        ensures { result.now ≡ vector (message self.entry) }
    {
        match self {
            Frame::Send { vector, .. } | Frame::Echo { vector, .. } | Frame::Ready { vector, .. } =>
                vector,
            Frame::Hash { .. } | Frame::Symbol { .. } => &[],
        }
    }

    /// Its bytes after the digests.
    pub fn payload(self) -> &'a [u8]
        ensures { result.now ≡ payload (message self.entry) }
    {
        match self {
            Frame::Send { fragment, .. } | Frame::Symbol { fragment, .. } => fragment,
            Frame::Hash { share, .. } => share,
            Frame::Echo { .. } | Frame::Ready { .. } => &[],
        }
    }
}
