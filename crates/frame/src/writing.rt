// Writing a frame.
ghost use Rattle.std.specs.Prelude.{◌≡◌, ◌+◌, ◌≤◌, ◌++◌, length, drop, Ok, nat_le};
ghost use Rattle.field.specs.Laws.{Arithmetic};
ghost use Rattle.frame.specs.Frames.{message, framed, encode, Written};
ghost use Rattle.frame.specs.Reading.{reads, Proper};

use crate::Frame;
use layout::{COUNT_BYTES, DIGEST_BYTES};
use refusal::Refusal;
use shape::Shape;

/// Writes four parts, one after another, to the front of a place that has room for them.
fn put_parts<'a>(
    place: &mut [u8],
    front: &'a [u8],
    vector: &'a [u8],
    count: &'a [u8],
    payload: &'a [u8],
)
    requires { length front.now + length vector.now + length count.now + length payload.now ≤ length place.old }
    ensures { let written = front.now ++ (vector.now ++ (count.now ++ payload.now)) in place.new ≡ written ++ drop (length written) place.old }
{
    let mut at = 0;
    for part in [front, vector, count, payload] {
        place[at..at + part.len()].copy_from_slice(part);
        at += part.len();
    }
}

/// Whether a place has room for a frame with so many bytes of digests and after them.
fn has_room(place: usize, digests: usize, bytes: usize) -> bool
    ensures { result ≡ nat_le (5 + digests + bytes) place }
{
    place >= COUNT_BYTES && place - COUNT_BYTES >= digests && place - COUNT_BYTES - digests >= bytes
}

/// Writes a frame to the front of a place, and answers its length. Short, with the place as found, where it has no room for the frame.
#[tactic(auto, using(crate::proofs::Turns::reads_back, layout::proofs::Numbers::row_number))]
pub fn write(frame: Frame, place: &mut [u8]) -> Result<usize, Refusal>
    ensures is { Written (message frame.entry) place.old result place.new }
    ensures back { (R : Arithmetic) (s : Shape) → Proper R s (message frame.entry) → reads R s (encode (message frame.entry)) ≡ Ok (message frame.entry) }
{
    let vector = frame.vector();
    let payload = frame.payload();
    if !has_room(place.len(), vector.len(), payload.len()) {
        return Err(Refusal::Short);
    }
    let [.., digests] = (vector.len() / DIGEST_BYTES).to_be_bytes();
    let [.., high, low] = payload.len().to_be_bytes();
    let front = [frame.kind().into(), frame.sender(), digests];
    put_parts(place, &front, vector, &[high, low], payload);
    Ok(COUNT_BYTES + vector.len() + payload.len())
}
