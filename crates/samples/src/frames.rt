//! Frames of four boards and blocks of one row: worked samples, each way of being torn, and what is written.
use fault::{FieldFault, FrameFault};
use field256::Field256;
use field257::Field257;
use frame::{Frame, write};
use kind::{Kind, NoKind};
use layout::Layout;
use reader::{read, read_checked};
use refusal::{Layer, Refusal};
use shape::Shape;
use std::fmt::InlineText;
use std::test::Fail;

/// SYMBOL of 03 from board 2 in field 256.
const SYMBOL: [u8; 6] = [5, 2, 0, 0, 1, 3];

/// The starts of frames that are torn, and where.
const TORN: [(&[u8], usize); 17] = [
    (&[], 0),
    (&[0, 2, 0, 0, 1, 3], 0),
    (&[6, 2, 0, 0, 1, 3], 0),
    (&[5], 1),
    (&[1, 1, 4], 1),
    (&[2, 0, 4], 1),
    (&[5, 5, 0, 0, 1, 3], 1),
    (&[5, 2], 2),
    (&[5, 2, 1, 0, 1, 3], 2),
    (&[2, 2, 3, 0, 0], 2),
    (&[3, 2, 4, 1, 2, 3], 6),
    (&[5, 2, 0], 3),
    (&[5, 2, 0, 0], 4),
    (&[5, 2, 0, 0, 2, 3, 3], 3),
    (&[5, 2, 0, 1, 1, 3], 3),
    (&[5, 2, 0, 0, 1], 5),
    (&[5, 2, 0, 0, 1, 3, 0], 6),
];

/// What a frame is refused with, and where.
fn refused(read: Result<Frame, FrameFault>) -> Option<(Refusal, usize)> {
    let fault = read.err()?;
    Some((fault.into(), fault.place()))
}

#[test]
fn symbol_is_read(rt: HostRuntime) -> Result<(), Fail> {
    let shape = Shape::new(1, 1).ok_or("no shape")?;
    let symbol = Frame::Symbol {
        sender: 2,
        fragment: b"\x03",
    };
    assert_eq!(rt; read_checked::<Field256>(shape, &SYMBOL), Ok(symbol));
    Ok(())
}

#[test]
fn torn_frames(rt: HostRuntime) -> Result<(), Fail> {
    let shape = Shape::new(1, 1).ok_or("no shape")?;
    for (bytes, place) in TORN {
        assert_eq!(rt;
            refused(read::<Field256>(shape, bytes)),
            Some((Refusal::Torn, place))
        );
    }
    Ok(())
}

#[test]
fn elements_of_two_bytes(rt: HostRuntime) -> Result<(), Fail> {
    let one = Shape::new(1, 1).ok_or("no shape")?;
    let two = Shape::new(1, 2).ok_or("no shape")?;
    let good = read_checked::<Field257>(one, &[5, 2, 0, 0, 2, 1, 0]);
    let bad = read_checked::<Field257>(one, &[5, 2, 0, 0, 2, 1, 1]);
    let longer = read_checked::<Field257>(one, &[5, 2, 0, 0, 2, 1, 1, 0]);
    let second = read_checked::<Field257>(two, &[5, 4, 0, 0, 4, 1, 0, 1, 1]);
    assert!(rt; good.is_ok());
    assert_eq!(rt; refused(bad), Some((Refusal::Overrun, 5)));
    assert_eq!(rt; refused(longer), Some((Refusal::Torn, 7)));
    assert_eq!(rt; refused(second), Some((Refusal::Overrun, 7)));
    Ok(())
}

#[test]
fn frames_are_written(rt: HostRuntime) {
    let frame = Frame::Symbol {
        sender: 2,
        fragment: b"\x03",
    };
    let mut place = [0xee; 8];
    let mut short = [0xee; 5];
    assert_eq!(rt; write(frame, &mut place), Ok(6));
    assert_eq!(rt; write(frame, &mut short), Err(Refusal::Short));
    assert_eq!(rt; place, [5, 2, 0, 0, 1, 3, 0xee, 0xee]);
    assert_eq!(rt; short, [0xee; 5]);
}

#[test]
fn send_comes_back(rt: HostRuntime) -> Result<(), Fail> {
    let shape = Shape::new(1, 1).ok_or("no shape")?;
    let vector = [0x5a; 128];
    let mut place = [0; 140];
    let frame = Frame::Send {
        vector: &vector,
        fragment: b"\x07",
    };
    assert_eq!(rt; write(frame, &mut place), Ok(134));
    assert_eq!(rt; &place[0..4], b"\x01\x00\x04\x5a".as_slice());
    assert_eq!(rt; &place[130..135], b"\x5a\x00\x01\x07\x00".as_slice());
    assert_eq!(rt; read::<Field256>(shape, &place[0..134]), Ok(frame));
    Ok(())
}

#[test]
fn lengths_of_frames(rt: HostRuntime) -> Result<(), Fail> {
    let shape = Shape::new(1, 1).ok_or("no shape")?;
    let lengths = [
        (Kind::Send, 134),
        (Kind::Echo, 133),
        (Kind::Ready, 133),
        (Kind::Hash, 69),
        (Kind::Symbol, 6),
    ];
    for (kind, bytes) in lengths {
        assert_eq!(rt; Layout { shape, kind }.frame_bytes::<Field256>(), bytes);
    }
    let symbol = Layout {
        shape,
        kind: Kind::Symbol,
    };
    assert_eq!(rt; symbol.frame_bytes::<Field257>(), 7);
    Ok(())
}

#[test]
fn kinds(rt: HostRuntime) {
    assert_eq!(rt; u8::from(Kind::Symbol), 5);
    assert_eq!(rt; Kind::try_from(5), Ok(Kind::Symbol));
    assert_eq!(rt; Kind::try_from(6), Err(NoKind));
}

#[test]
fn refusals(rt: HostRuntime) {
    let refusal = Refusal::from(FrameFault::Field(FieldFault { place: 5 }));
    assert_eq!(rt; u8::from(refusal), 5);
    assert_eq!(rt; refusal.layer(), Layer::Field);
    assert_eq!(rt; refusal.word(), "overrun");
    assert_eq!(rt; Refusal::Upright.layer().word(), "floor");
    assert_eq!(rt; u8::from(Refusal::Early), 11);
}

#[test]
fn refusals_are_printed(rt: HostRuntime) {
    let line = format_args!("{:>8} {}", Refusal::Overrun, Refusal::Upright.layer());
    assert_eq!(rt; InlineText::<16>::of(line).as_str(), " overrun floor");
}
