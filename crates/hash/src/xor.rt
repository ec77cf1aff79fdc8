// The exclusive or of a string's 32-byte pieces.
ghost use Rattle.std.specs.Prelude.{◌≡◌, ℕ, ◌<◌, ◌≤◌, length, bit_xor, slice_index};
ghost use Rattle.hash.specs.Fold.{folded};

/// Adds a piece to the sum; one shorter than 32 bytes counts as filled with zero bytes.
#[tactic(auto, using(crate::specs::Columns::xor_past))]
fn mix(sum: &mut [u8; 32], piece: &[u8])
    requires { length piece.now ≤ 32 }
    ensures { (i : ℕ) → i < 32 → slice_index sum.new i ≡ bit_xor (slice_index sum.old i) (slice_index piece.now i) }
{
    for (i, b) in piece.iter().enumerate() {
        sum[i] ^= *b;
    }
}

/// The exclusive or of all pieces of a string; of the empty string, zero bytes.
#[tactic(auto, using(crate::proofs::Blocks::column_next))]
pub(crate) fn fold(bytes: &[u8]) -> [u8; 32]
    ensures { result ≡ folded bytes.now }
{
    let (pieces, rest) = bytes.as_chunks::<32>();
    let mut sum = [0; 32];
    for piece in pieces {
        mix(&mut sum, piece);
    }
    mix(&mut sum, rest);
    sum
}
