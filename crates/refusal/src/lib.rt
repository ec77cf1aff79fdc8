//! The refusals: each has a number, a word and the layer that it comes from, and where several fit the smaller number is given.
#![tactic(auto)]

ghost use Rattle.std.specs.Prelude.{◌≡◌, Some};
ghost use Rattle.std.specs.Fmt.{padded};
ghost use Rattle.refusal.specs.Refusals.{number, word, layer};

mod layer;

pub use layer::Layer;
use std::fmt;

/// Why a call says no, each with its number, by which refusals are ranked.
#[derive(Clone, Copy, Debug, PartialEq, Eq)]
pub enum Refusal {
    /// t, the rows or the number of fetchers is outside its range.
    Misfit = 1,
    /// The memory, or a place to write, is too short.
    Short,
    /// A frame breaks the layout of its kind.
    Torn,
    /// A party number that the call does not take, or a kind, a sender and a receiver that do not go together.
    Stray,
    /// An element in a frame is not a code of the field.
    Overrun,
    /// A block to deal does not have K bytes.
    Miscut,
    /// A frame is forged in the name of a party that is not turned.
    Upright,
    /// A party that may not be turned is.
    Turned,
    /// As many boards are turned as may be.
    Enough,
    /// A second deal, or a second start of a fetcher.
    Twice,
    /// What the call needs has not come to be yet.
    Early,
}

impl Refusal {
    /// Its word, also for callers that have nothing to format it with.
    pub fn word(self) -> &'static str
        ensures { result.now ≡ word self }
    {
        match self {
            Refusal::Misfit => "misfit",
            Refusal::Short => "short",
            Refusal::Torn => "torn",
            Refusal::Stray => "stray",
            Refusal::Overrun => "overrun",
            Refusal::Miscut => "miscut",
            Refusal::Upright => "upright",
            Refusal::Turned => "turned",
            Refusal::Enough => "enough",
            Refusal::Twice => "twice",
            Refusal::Early => "early",
        }
    }

    /// The layer that it comes from.
    pub fn layer(self) -> Layer
        ensures { result ≡ layer self }
    {
        match self {
            Refusal::Torn => Layer::Frame,
            Refusal::Stray => Layer::Party,
            Refusal::Overrun => Layer::Field,
            _ => Layer::Floor,
        }
    }
}

impl From<Refusal> for u8 {
    ghost from_gives = { λ refusal n. n ≡ number refusal };

    fn from(refusal: Refusal) -> u8 {
        refusal as u8
    }
}

impl fmt::Display for Refusal {
    ghost output = { λ refusal. Some (word refusal) };

    ghost styled_output = { λ refusal spec. Some (padded spec (word refusal)) };

    fn fmt<W: fmt::Write>(&self, f: &mut fmt::Formatter<W>) -> fmt::Result {
        f.pad(self.word())
    }
}
