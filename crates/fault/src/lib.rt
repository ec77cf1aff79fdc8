//! Faults of frames, and of the elements in them, which carry their places.
#![tactic(auto)]

ghost use Rattle.std.specs.Prelude.{◌≡◌};
ghost use Rattle.fault.specs.declared.FrameFault.TheVariants.{Field};
ghost use Rattle.fault.specs.Faults.{refusal, place};
ghost use Rattle.refusal.specs.declared.Refusal.TheVariants.{Overrun};

use refusal::Refusal;

/// An element is not a code of the field.
#[derive(Clone, Copy, Debug, PartialEq, Eq)]
pub struct FieldFault {
    /// The element's first byte in the frame.
    pub place: usize,
}

/// A frame breaks the layout of its kind, or a fault of the field is in it.
#[derive(Clone, Copy, Debug, PartialEq, Eq)]
pub enum FrameFault {
    /// The layout is broken.
    Torn {
        /// The first byte of what is wrong, or the frame's length where it ends too soon.
        place: usize,
    },
    /// An element is not a code.
    Field(FieldFault),
}

impl FrameFault {
    /// The byte of the frame where it is.
    pub fn place(self) -> usize
        ensures { result ≡ place self }
    {
        match self {
            FrameFault::Torn { place } => place,
            FrameFault::Field(fault) => fault.place,
        }
    }
}

impl From<FieldFault> for FrameFault {
    ghost from_gives = { λ e r. r ≡ Field e };

    fn from(below: FieldFault) -> FrameFault {
        FrameFault::Field(below)
    }
}

impl From<FieldFault> for Refusal {
    ghost from_gives = { λ fault r. r ≡ Overrun };

    fn from(_fault: FieldFault) -> Refusal {
        Refusal::Overrun
    }
}

impl From<FrameFault> for Refusal {
    ghost from_gives = { λ fault r. r ≡ refusal fault };

    fn from(fault: FrameFault) -> Refusal {
        match fault {
            FrameFault::Torn { .. } => Refusal::Torn,
            FrameFault::Field(fault) => fault.into(),
        }
    }
}
