// The layers that refusals come from.
ghost use Rattle.std.specs.Prelude.{◌≡◌, Some};
ghost use Rattle.std.specs.Fmt.{padded};
ghost use Rattle.refusal.specs.Refusals.{layer_word};

use std::fmt;

/// The layer that a refusal comes from.
#[derive(Clone, Copy, Debug, PartialEq, Eq)]
pub enum Layer {
    /// Elements of a field.
    Field,
    /// Frames on the wire.
    Frame,
    /// Who takes which frame.
    Party,
    /// A call as a whole.
    Floor,
}

impl Layer {
    /// Its word, also for callers that have nothing to format it with.
    pub fn word(self) -> &'static str
        ensures { result.now ≡ layer_word self }
    {
        match self {
            Layer::Field => "field",
            Layer::Frame => "frame",
            Layer::Party => "party",
            Layer::Floor => "floor",
        }
    }
}

impl fmt::Display for Layer {
    ghost output = { λ layer. Some (layer_word layer) };

    ghost styled_output = { λ layer spec. Some (padded spec (layer_word layer)) };

    fn fmt<W: fmt::Write>(&self, f: &mut fmt::Formatter<W>) -> fmt::Result {
        f.pad(self.word())
    }
}
