//! The kinds of message, and the numbers that stand for them on the wire.
#![tactic(auto)]

ghost use Rattle.std.specs.Prelude.{◌≡◌, Some, None, MatchResult};
ghost use Rattle.kind.specs.Numbers.{number, numbered};

/// The five kinds of message, each with its number on the wire.
#[derive(Clone, Copy, Debug, PartialEq, Eq)]
pub enum Kind {
    /// From the dealer to a board: the commitment vector and the board's fragment.
    Send = 1,
    /// From a board to all boards: the vector of the fragment that it keeps.
    Echo,
    /// From a board to all boards: a vector that enough others hold with.
    Ready,
    /// From a board to a fetcher: its share of the vector.
    Hash,
    /// From a board to a fetcher: its fragment.
    Symbol,
}

/// A number that is no kind's.
#[derive(Clone, Copy, Debug, PartialEq, Eq)]
pub struct NoKind;

impl From<Kind> for u8 {
    ghost from_gives = { λ kind n. n ≡ number kind };

    fn from(kind: Kind) -> u8 {
        kind as u8
    }
}

impl TryFrom<u8> for Kind {
    type Error = NoKind;

    ghost try_from_gives = { λ n r. MatchResult r (λ kind. numbered n ≡ Some kind) (λ _. numbered n ≡ None) };

    fn try_from(number: u8) -> Result<Kind, NoKind> {
        match number {
            1 => Ok(Kind::Send),
            2 => Ok(Kind::Echo),
            3 => Ok(Kind::Ready),
            4 => Ok(Kind::Hash),
            5 => Ok(Kind::Symbol),
            _ => Err(NoKind),
        }
    }
}
