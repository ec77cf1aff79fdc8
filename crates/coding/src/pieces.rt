// Pieces of one size, written one after another.
ghost use Rattle.std.specs.Prelude.{◌≡◌, ℕ, ◌*◌, ◌<◌, ◌≤◌, ◌++◌, List, length, drop};
ghost use Rattle.elements.specs.Pieces.{laid};
ghost use Rattle.coding.specs.Pieced.{Leaves};

/// Writes `count` pieces of `size` bytes to the front of a place, each straight into its own part.
pub(crate) fn write_pieces<W: Fn(usize, &mut [u8])>(
    place: &mut [u8],
    size: usize,
    count: usize,
    write: W,
)
    requires room { count * size ≤ length place.old }
    requires callable { (i : ℕ) (part : _) → i < count → length part.now ≡ size → W.pre write i part }
    ensures front { (piece : ℕ → List ℕ) → Leaves W.Fn write size count piece → place.new ≡ laid piece count ++ drop (count * size) place.old }
    ensures whole { (piece : ℕ → List ℕ) → Leaves W.Fn write size count piece → length place.old ≡ count * size → place.new ≡ laid piece count }
{
    for i in 0..count {
        let from = i * size;
        write(i, &mut place[from..from + size]);
    }
}
