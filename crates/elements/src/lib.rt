//! Byte strings in pieces of one size: those of a fragment or a share are elements, codes of w bytes each, the high byte first.
#![tactic(auto)]

ghost use Rattle.std.specs.Prelude.{◌≡◌, ◌+◌, ◌*◌, ◌/◌, ◌<◌, ◌≤◌, ◌&&◌, length, if◌then◌else◌, Some, None, nat_lt, Err, ◌↔◌, OnOk, OnErr};
ghost use Rattle.field.specs.Laws.{width};
ghost use Rattle.elements.specs.Pieces.{piece, put};
ghost use Rattle.elements.specs.Numbers.{number, written};
ghost use Rattle.elements.specs.Element.{element, FirstOverrun};

use field::Field;

/// Why an element is not written.
#[derive(Clone, Copy, PartialEq, Eq, Debug, Drop)]
pub enum Unwritten {
    /// The part has no such element.
    Outside,
    /// The value is not a code.
    Overrun,
}

/// The number that the bytes of an element write, whether it is a code or not; of no bytes, 0.
fn number_of(element: &[u8]) -> u16
    requires { length element.now ≤ 2 }
    ensures { result ≡ number element.now }
{
    match element {
        [byte] => u16::from(*byte),
        [high, low] => u16::from_be_bytes([*high, *low]),
        _ => 0,
    }
}

/// The number that the bytes of element `i` of a part write, read where they lie.
fn number_at<F: Field>(part: &[u8], i: usize) -> u16
    requires { i < length part.now / width F.arithmetic }
    ensures { result ≡ element F.arithmetic part.now i }
{
    let from = i * F::WIDTH;
    number_of(&part[from..from + F::WIDTH])
}

/// Element `i` of a part, or none where the part has no such element or its number is not a code.
pub fn read_element<F: Field>(part: &[u8], i: usize) -> Option<u16>
    ensures { result ≡ (if nat_lt i (length part.now / width F.arithmetic) && nat_lt (element F.arithmetic part.now i) F.arithmetic.size then Some (element F.arithmetic part.now i) else None) }
{
    if i >= part.len() / F::WIDTH {
        return None;
    }
    let value = number_at::<F>(part, i);
    (u32::from(value) < F::SIZE).then_some(value)
}

/// Writes `value` as element `i` of a part, and leaves the part as found where it cannot.
pub fn write_element<F: Field>(part: &mut [u8], i: usize, value: u16) -> Result<(), Unwritten>
    ensures outside { result ≡ Err Unwritten.Outside ↔ (length part.old / width F.arithmetic ≤ i) }
    ensures overrun { result ≡ Err Unwritten.Overrun ↔ ((i < length part.old / width F.arithmetic) × (F.arithmetic.size ≤ value)) }
    ensures written { OnOk result (part.new ≡ put part.old (i * width F.arithmetic) (written (width F.arithmetic) value)) }
    ensures as_found { OnErr result (part.new ≡ part.old) }
{
    if i >= part.len() / F::WIDTH {
        return Err(Unwritten::Outside);
    }
    if u32::from(value) >= F::SIZE {
        return Err(Unwritten::Overrun);
    }
    let from = i * F::WIDTH;
    part[from..from + F::WIDTH].copy_from_slice(&value.to_be_bytes()[2 - F::WIDTH..]);
    Ok(())
}

/// The first element of a part whose number is not a code, or none where all are codes.
pub fn overrun<F: Field>(part: &[u8]) -> Option<usize>
    ensures { FirstOverrun F.arithmetic part.now (length part.now / width F.arithmetic) result }
{
    for i in 0..part.len() / F::WIDTH {
        if u32::from(number_at::<F>(part, i)) >= F::SIZE {
            return Some(i);
        }
    }
    None
}

/// Piece `i` of a byte string in pieces of `size` bytes: one that the string's end cuts is shorter, and one past it empty.
pub fn piece_at(bytes: &[u8], size: usize, i: usize) -> &[u8]
    ensures { result.now ≡ piece size bytes.now i }
{
    let rest = bytes.get(i.saturating_mul(size)..).unwrap_or(&[]);
    rest.get(..size).unwrap_or(rest)
}
