// Vectors from outside: the examples of FIPS 180-4, and digests by other implementations at the lengths where the padding turns.
use hash::{Fold, Hash, Sha256};
use hex::FromHex;
use std::array;
use std::process::Abort;

/// A message, and its digest in hexadecimal digits.
type Case<'a> = (&'a [u8], &'static [u8; 64]);

/// The bytes 7i + 3 modulo 256.
fn pattern() -> [u8; 120] {
    array::from_fn(|i| ((7 * i + 3) % 256) as u8)
}

fn agree<D: Hash>(rt: &impl Abort, cases: &[Case]) {
    for (message, expected) in cases {
        assert_eq!(rt; <[u8; 32]>::from_hex(*expected), Ok(D::digest(message)));
    }
}

#[test]
fn sha256_examples(rt: HostRuntime) {
    agree::<Sha256>(
        &rt,
        &[
            (
                b"",
                b"e3b0c44298fc1c149afbf4c8996fb92427ae41e4649b934ca495991b7852b855",
            ),
            (
                b"abc",
                b"ba7816bf8f01cfea414140de5dae2223b00361a396177a9cb410ff61f20015ad",
            ),
            (
                b"abcdbcdecdefdefgefghfghighijhijkijkljklmklmnlmnomnopnopq",
                b"248d6a61d20638b8e5c026930c3e6039a33ce45964ff2167f6ecedd419db06c1",
            ),
            (
                b"abcdefghbcdefghicdefghijdefghijkefghijklfghijklmghijklmnhijklmnoijklmnopjklmnopqklmnopqrlmnopqrsmnopqrstnopqrstu",
                b"cf5b16a778af8380036ce59e7b0492370b249b11e8f07a51afac45037afee9d1",
            ),
        ],
    );
}

#[test]
fn sha256_lengths(rt: HostRuntime) {
    let bytes = pattern();
    agree::<Sha256>(
        &rt,
        &[
            (
                &bytes[0..0],
                b"e3b0c44298fc1c149afbf4c8996fb92427ae41e4649b934ca495991b7852b855",
            ),
            (
                &bytes[0..55],
                b"e7313d333c272e639f790978283f9eb392e843d0f29b7016828bb1daa4aac70b",
            ),
            (
                &bytes[0..56],
                b"4324d65f3c103567f5589c710bc08f8523f929a9272e3af36fc968e52abc6c27",
            ),
            (
                &bytes[0..63],
                b"81c80242132f230c3bd41b3e63bbcff16107339549214a99614ff26664625055",
            ),
            (
                &bytes[0..64],
                b"39e3d7b6b5d075d37d053ad89b24b41bef4f3c29760c84447cab3f3be1882241",
            ),
            (
                &bytes[0..65],
                b"aacca6ff74fdbb296d165a45cecfa04e5127bc008770fbbdd48006f2d2fae95e",
            ),
            (
                &bytes[0..119],
                b"9ce7368e4daf32341631b492e80359dc9f594b48453cd0dd5bf0b19279cc177e",
            ),
            (
                &bytes[0..120],
                b"7836b787757e95e58b3ca5aec90b1b004e8deba1e50e9675af9cabf1a13a04b5",
            ),
        ],
    );
}

#[test]
fn fold_lengths(rt: HostRuntime) {
    let bytes = pattern();
    agree::<Fold>(
        &rt,
        &[
            (
                &bytes[0..0],
                b"0000000000000000000000000000000000000000000000000000000000000000",
            ),
            (
                &bytes[0..5],
                b"030a11181f000000000000000000000000000000000000000000000000000000",
            ),
            (
                &bytes[0..33],
                b"e00a11181f262d343b424950575e656c737a81888f969da4abb2b9c0c7ced5dc",
            ),
            (
                &bytes[0..64],
                b"e0e0e0e0e020202020606060606020202020e0e0e0e0e0202020206060606060",
            ),
        ],
    );
}
