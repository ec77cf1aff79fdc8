//! Fragments, shares and decoding, with values that a separate implementation in another language gave.
use coding::{
    Undecodable, Unencodable, commit, decode, digest_of, encode_fragment, encode_fragments,
    encode_share,
};
use elements::{Unwritten, overrun, read_element, write_element};
use field::Field;
use field256::Field256;
use field257::Field257;
use hash::{Fold, Sha256};
use polynomial::Basis;
use shape::Shape;
use std::array;
use std::process::Abort;
use std::test::Fail;

/// The bytes i * i + 7 i + 1 modulo 256.
fn large_design() -> [u8; 3072] {
    array::from_fn(|i| ((i * i + 7 * i + 1) % 256) as u8)
}

/// The bytes 11 i + 5 modulo 256.
fn some_vector() -> [u8; 224] {
    array::from_fn(|i| ((11 * i + 5) % 256) as u8)
}

#[test]
fn lengths(rt: HostRuntime) -> Result<(), Fail> {
    let shape = Shape::new(2, 10).ok_or("no shape")?;
    assert_eq!(rt; shape.boards(), 7);
    assert_eq!(rt; shape.block_bytes(), 30);
    assert_eq!(rt; shape.fragment_bytes::<Field256>(), 10);
    assert_eq!(rt; shape.fragment_bytes::<Field257>(), 20);
    assert_eq!(rt; shape.vector_bytes(), 224);
    assert_eq!(rt; shape.share_rows(), 75);
    assert_eq!(rt; shape.share_bytes::<Field257>(), 150);
    assert!(rt;
        Shape::new(0, 1).is_none()
            && Shape::new(6, 1).is_none()
            && Shape::new(1, 0).is_none()
            && Shape::new(5, 513).is_none()
    );
    Ok(())
}

#[test]
fn two_bytes_for_four_boards(rt: HostRuntime) -> Result<(), Fail> {
    let shape = Shape::new(1, 1).ok_or("no shape")?;
    let mut narrow = [0xee; 5];
    encode_fragments::<Field256>(shape, &[5, 3], &mut narrow)?;
    assert_eq!(rt; narrow, [6, 3, 0, 9, 0xee]);
    let mut wide = [0; 8];
    encode_fragments::<Field257>(shape, &[5, 3], &mut wide)?;
    assert_eq!(rt; wide, [0, 8, 0, 11, 0, 14, 0, 17]);
    Ok(())
}

/// Encodes two rows for seven boards, and decodes them from every three.
fn every_three<F: Field>(rt: &impl Abort, expected: &[u8]) -> Result<(), Fail> {
    let shape = Shape::new(2, 2).ok_or("no shape")?;
    let design = [200, 100, 50, 7, 0, 255];
    let mut memory = [0; 28];
    if expected.len() != 7 * shape.fragment_bytes::<F>() || expected.len() > 28 {
        return Err(Fail::new("the expected fragments have another length"));
    }
    let fragments = &mut memory[0..expected.len()];
    encode_fragments::<F>(shape, &design, fragments)?;
    assert_eq!(rt; &*fragments, expected);
    for a in 1..6 {
        for b in a + 1..7 {
            for c in b + 1..8 {
                let mut block = [0; 6];
                assert_eq!(rt;
                    decode::<F>(shape, expected, &[a, b, c], &mut block),
                    Ok(())
                );
                assert_eq!(rt; block, design);
            }
        }
    }
    Ok(())
}

#[test]
fn three_of_seven(rt: HostRuntime) -> Result<(), Fail> {
    every_three::<Field256>(
        &rt,
        b"\x9e\xf8\xc8\xd6\x9e\x29\x4e\x6e\x18\x91\x4e\xbf\x18\x40",
    )?;
    every_three::<Field257>(
        &rt,
        b"\x00\x5d\x00\x05\x00\x56\x01\x00\x00\xb3\x00\xf6\x00\x73\x00\xe8\x00\x97\x00\xd6\x00\x1e\x00\xc0\x00\x09\x00\xa6",
    )
}

/// The largest shape: 3,072 bytes for sixteen boards, of which six give them back.
#[test]
fn six_of_sixteen(rt: HostRuntime) -> Result<(), Fail> {
    let shape = Shape::new(5, 512).ok_or("no shape")?;
    let design = large_design();
    let mut fragments = [0; 16384];
    encode_fragments::<Field257>(shape, &design, &mut fragments)?;
    assert_eq!(rt;
        &fragments[15360..15368],
        b"\x00\x89\x00\x07\x00\x59\x00\x5f".as_slice()
    );
    assert_eq!(rt;
        &fragments[16376..16384],
        b"\x00\x30\x00\xa1\x00\xd6\x00\xbd".as_slice()
    );
    let mut block = [0; 3072];
    assert_eq!(rt;
        decode::<Field257>(shape, &fragments, &[2, 5, 6, 11, 15, 16], &mut block),
        Ok(())
    );
    assert!(rt; block == design);
    let mut last = [0; 512];
    encode_fragment::<Field256>(shape, &design, 16, &mut last)?;
    assert_eq!(rt; &last[0..8], b"\x33\xb1\x9a\xc4\xb5\xe8\x64\x25".as_slice());
    assert_eq!(rt;
        &last[504..512],
        b"\x7d\x14\x9b\x0c\xcf\x58\x5e\x70".as_slice()
    );
    Ok(())
}

#[test]
fn shares_of_a_vector(rt: HostRuntime) -> Result<(), Fail> {
    let shape = Shape::new(2, 1).ok_or("no shape")?;
    let vector = some_vector();
    let mut narrow = [0; 75];
    encode_share::<Field256>(shape, &vector, 3, &mut narrow)?;
    assert_eq!(rt;
        &narrow[0..8],
        b"\x42\xb9\x83\x60\xfb\x83\xe2\xe4".as_slice()
    );
    assert_eq!(rt; &narrow[69..75], b"\xee\x94\x24\x51\x47\x3a".as_slice());
    let mut wide = [0; 150];
    encode_share::<Field257>(shape, &vector, 3, &mut wide)?;
    assert_eq!(rt; &wide[0..8], b"\x00\x27\x00\xd3\x00\x7e\x00\x29".as_slice());
    assert_eq!(rt; &wide[144..150], b"\x00\xcc\x00\x77\x00\x5b".as_slice());
    Ok(())
}

#[test]
fn refusals_leave_all_as_found(rt: HostRuntime) -> Result<(), Fail> {
    let shape = Shape::new(1, 1).ok_or("no shape")?;
    let mut part = [7];
    assert_eq!(rt;
        encode_fragment::<Field256>(shape, &[5, 3], 0, &mut part),
        Err(Unencodable::NoBoard)
    );
    assert_eq!(rt;
        encode_fragment::<Field256>(shape, &[5, 3], 5, &mut part),
        Err(Unencodable::NoBoard)
    );
    assert_eq!(rt;
        encode_fragment::<Field256>(shape, &[5], 1, &mut part),
        Err(Unencodable::Length)
    );
    assert_eq!(rt; part, [7]);
    let mut block = [1, 2];
    assert_eq!(rt;
        decode::<Field256>(shape, &[6, 3, 0, 9], &[2, 1], &mut block),
        Err(Undecodable::Unfit)
    );
    assert_eq!(rt;
        decode::<Field256>(shape, &[6, 3, 0, 9], &[2, 5], &mut block),
        Err(Undecodable::Unfit)
    );
    assert_eq!(rt;
        decode::<Field256>(shape, &[6, 3, 0], &[1, 2], &mut block),
        Err(Undecodable::Unfit)
    );
    assert_eq!(rt;
        decode::<Field257>(shape, &[1, 1, 0, 11, 0, 14, 0, 17], &[1, 2], &mut block),
        Err(Undecodable::Overrun)
    );
    assert_eq!(rt;
        decode::<Field257>(shape, &[1, 0, 1, 0, 1, 0, 1, 0], &[1, 3], &mut block),
        Err(Undecodable::Unreadable)
    );
    assert_eq!(rt; block, [1, 2]);
    Ok(())
}

#[test]
fn elements(rt: HostRuntime) {
    assert_eq!(rt; read_element::<Field257>(&[0, 8, 1, 0, 1, 1], 1), Some(256));
    assert_eq!(rt; read_element::<Field257>(&[0, 8, 1, 0, 1, 1], 2), None);
    assert_eq!(rt; read_element::<Field257>(&[0, 8, 1], 1), None);
    assert_eq!(rt; overrun::<Field257>(&[0, 8, 1, 0, 1, 1]), Some(2));
    assert_eq!(rt; overrun::<Field256>(&[0, 8, 1, 255]), None);
    let mut part = [9; 5];
    assert_eq!(rt; write_element::<Field257>(&mut part, 1, 256), Ok(()));
    assert_eq!(rt;
        write_element::<Field257>(&mut part, 2, 1),
        Err(Unwritten::Outside)
    );
    assert_eq!(rt;
        write_element::<Field257>(&mut part, 0, 257),
        Err(Unwritten::Overrun)
    );
    assert_eq!(rt; part, [9, 9, 1, 0, 9]);
}

#[test]
fn a_line_through_two_points(rt: HostRuntime) -> Result<(), Fail> {
    let basis = Basis::new::<Field257>(&[1, 3]).ok_or("no basis")?;
    assert_eq!(rt;
        basis.interpolate::<Field257>(&[(1, 256), (3, 256)]),
        Some([256, 0, 0, 0, 0, 0])
    );
    assert_eq!(rt;
        basis.interpolate::<Field257>(&[(1, 8), (3, 14)]),
        Some([5, 3, 0, 0, 0, 0])
    );
    assert_eq!(rt; basis.interpolate::<Field257>(&[(1, 8), (2, 11)]), None);
    assert!(rt;
        Basis::new::<Field257>(&[3, 1]).is_none()
            && Basis::new::<Field256>(&[1, 256]).is_none()
            && Basis::new::<Field256>(&[]).is_none()
    );
    Ok(())
}

#[test]
fn commitment_of_four_fragments(rt: HostRuntime) -> Result<(), Fail> {
    let shape = Shape::new(1, 1).ok_or("no shape")?;
    let mut vector = [9; 128];
    commit::<Field256, Fold>(shape, &[6, 3, 0, 9], &mut vector)?;
    assert_eq!(rt;
        [
            vector[0],
            vector[1],
            vector[32],
            vector[64],
            vector[96],
            vector[127]
        ],
        [6, 0, 3, 0, 9, 0]
    );
    commit::<Field256, Sha256>(shape, &[6, 3, 0, 9], &mut vector)?;
    assert_eq!(rt; &vector[32..64], digest_of::<Sha256>(2, &[3]).as_slice());
    assert_eq!(rt;
        commit::<Field257, Sha256>(shape, &[6, 3, 0, 9], &mut vector),
        Err(Unencodable::Length)
    );
    Ok(())
}
