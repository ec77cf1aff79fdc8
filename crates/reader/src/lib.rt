//! Reading frames: the layout first, and then the elements.
#![tactic(auto)]

ghost use Rattle.std.specs.Prelude.{◌≡◌, ◌+◌, ◌^◌, ◌<◌, length};
ghost use Rattle.frame.specs.Frames.{message, made};
ghost use Rattle.frame.specs.Reading.{reads, told, WritesBack, checked, reads_checked};
ghost use Rattle.reader.specs.Stages.{Fronts, Sections};

use elements::{overrun, piece_at};
use fault::{FieldFault, FrameFault};
use field::Field;
use frame::Frame;
use kind::Kind;
use layout::{COUNT_BYTES, FRONT_BYTES, Layout};
use shape::Shape;
use std::cmp::Ordering;

/// Layout and sender of a frame, and what follows its count of digests.
fn front(shape: Shape, frame: &[u8]) -> Result<(Layout, u8, &[u8]), FrameFault>
    ensures { Fronts shape frame.now result }
{
    let ended = FrameFault::Torn { place: frame.len() };
    let [number, rest @ ..] = frame else {
        return Err(ended);
    };
    let kind = Kind::try_from(*number).map_err(|_| FrameFault::Torn { place: 0 })?;
    let layout = Layout { shape, kind };
    let [sender, rest @ ..] = rest else {
        return Err(ended);
    };
    if !layout.is_sender(*sender) {
        return Err(FrameFault::Torn { place: 1 });
    }
    let [digests, rest @ ..] = rest else {
        return Err(ended);
    };
    if usize::from(*digests) != layout.digests() {
        return Err(FrameFault::Torn { place: 2 });
    }
    Ok((layout, *sender, rest))
}

/// The sections of a frame, from what follows its count of digests: the digests, a count of two bytes, as many bytes, and nothing more.
fn sections<F: Field>(layout: Layout, rest: &[u8]) -> Result<(&[u8], &[u8]), FrameFault>
    requires { length rest.now + 3 < 2 ^ 64 }
    ensures { Sections F.arithmetic layout rest.now result }
{
    let ended = FrameFault::Torn {
        place: FRONT_BYTES + rest.len(),
    };
    let (vector, rest) = rest.split_at_checked(layout.vector_bytes()).ok_or(ended)?;
    let [high, low, payload @ ..] = rest else {
        return Err(ended);
    };
    let bytes = layout.payload_bytes::<F>();
    if usize::from(u16::from_be_bytes([*high, *low])) != bytes {
        return Err(FrameFault::Torn {
            place: FRONT_BYTES + vector.len(),
        });
    }
    match payload.len().cmp(&bytes) {
        Ordering::Less => Err(ended),
        Ordering::Equal => Ok((vector, payload)),
        Ordering::Greater => Err(FrameFault::Torn {
            place: COUNT_BYTES + vector.len() + bytes,
        }),
    }
}

/// The frame of a kind from a sender, with these sections.
fn frame_of<'a>(kind: Kind, sender: u8, vector: &'a [u8], payload: &'a [u8]) -> Frame<'a>
    ensures { message result ≡ made kind sender vector.now payload.now }
{
    match kind {
        Kind::Send => Frame::Send {
            vector,
            fragment: payload,
        },
        Kind::Echo => Frame::Echo { sender, vector },
        Kind::Ready => Frame::Ready { sender, vector },
        Kind::Hash => Frame::Hash {
            sender,
            share: payload,
        },
        Kind::Symbol => Frame::Symbol {
            sender,
            fragment: payload,
        },
    }
}

/// Reads the layout of a frame: the first kind, sender, count or end that its kind does not allow makes it torn. Elements are not looked at.
pub fn read<F: Field>(shape: Shape, frame: &[u8]) -> Result<Frame, FrameFault>
    ensures is { told result ≡ reads F.arithmetic shape frame.now }
    ensures back { WritesBack result frame.now }
{
    let (layout, sender, rest) = front(shape, frame)?;
    let (vector, payload) = sections::<F>(layout, rest)?;
    Ok(frame_of(layout.kind, sender, vector, payload))
}

/// Checks that the elements of a frame are codes.
#[tactic(auto, using(elements::proofs::Overruns::overrun_is))]
pub fn check<F: Field>(shape: Shape, frame: Frame) -> Result<(), FieldFault>
    ensures { result ≡ checked F.arithmetic shape (message frame.entry) }
{
    let layout = Layout {
        shape,
        kind: frame.kind(),
    };
    let section = piece_at(frame.payload(), layout.payload_bytes::<F>(), 0);
    match overrun::<F>(section) {
        None => Ok(()),
        Some(i) => Err(FieldFault {
            place: layout.payload_start() + i * F::WIDTH,
        }),
    }
}

/// Reads a frame and checks its elements: torn goes before overrun.
pub fn read_checked<F: Field>(shape: Shape, frame: &[u8]) -> Result<Frame, FrameFault>
    ensures { told result ≡ reads_checked F.arithmetic shape frame.now }
{
    let read = read::<F>(shape, frame)?;
    check::<F>(shape, read)?;
    Ok(read)
}
