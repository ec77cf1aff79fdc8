//! Hash functions from byte strings to 32 bytes behind one trait: SHA-256, and a plain exclusive or.
#![tactic(auto)]

ghost use Rattle.std.specs.Prelude.{◌≡◌, ℕ, List};
ghost use Rattle.hash.specs.Bytes.{Bytes, Digest};
ghost use Rattle.hash.specs.Fold.{folded};
ghost use Rattle.hash.specs.Sha256.{sha256};
ghost use Rattle.hash.specs.Digests.{sha256_digest, folded_digest};

mod sha2;
mod xor;

/// A hash function; generic code takes it as a parameter `D`, since clauses reserve `H` and `A`.
pub trait Hash {
    /// The function itself, from byte strings to digests.
    ghost hashes: { List ℕ → List ℕ };

    /// The digest of a byte string.
    fn digest(bytes: &[u8]) -> [u8; 32]
        ensures { result ≡ hashes bytes.now };

    /// The digest of a byte string is 32 bytes.
    ghost sound: { (m : List ℕ) → Bytes m → Digest (hashes m) };
}

/// SHA-256 of FIPS 180-4.
#[derive(Clone, Copy)]
pub struct Sha256;

impl Hash for Sha256 {
    ghost hashes = { sha256 };

    ghost sound = { λ m b. sha256_digest m };

    fn digest(bytes: &[u8]) -> [u8; 32] {
        sha2::digest_of(bytes)
    }
}

/// The exclusive or of a string's 32-byte pieces: cheap, and no protection against forgery.
#[derive(Clone, Copy)]
pub struct Fold;

impl Hash for Fold {
    ghost hashes = { folded };

    ghost sound = { λ m b. folded_digest m b };

    fn digest(bytes: &[u8]) -> [u8; 32] {
        xor::fold(bytes)
    }
}
