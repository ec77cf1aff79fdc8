//! The interface of a field of 256 to 65,536 codes, and the laws that every field owes.
#![tactic(auto)]

ghost use Rattle.std.specs.Prelude.{◌≡◌, ℕ};
ghost use Rattle.field.specs.Laws.{Arithmetic, FieldLaws, width};

/// A finite field whose elements are the codes 0 to q - 1. It keeps no state and refuses nothing: an operation that is given a number of q or more answers 0.
pub trait Field {
    /// The number q of codes.
    const SIZE: u32;

    /// The number w of bytes that an element takes on the wire, the high byte first.
    const WIDTH: usize;

    ghost SIZE: { ℕ };

    ghost WIDTH: { ℕ };

    // The meaning of size, sum, difference and product.
    ghost arithmetic: { Arithmetic };

    // The meaning of the inverse.
    ghost inverted: { ℕ → ℕ };

    /// a + b.
    fn sum(a: u16, b: u16) -> u16
        ensures { result ≡ arithmetic.add a b };

    /// a - b, which is what added to b gives a.
    fn difference(a: u16, b: u16) -> u16
        ensures { result ≡ arithmetic.sub a b };

    /// a times b.
    fn product(a: u16, b: u16) -> u16
        ensures { result ≡ arithmetic.mul a b };

    /// The code that a is multiplied with to give 1; 0 for 0, which has none.
    fn inverse(a: u16) -> u16
        ensures { result ≡ inverted a };

    // The constants mean what the arithmetic says.
    ghost size_law: { SIZE ≡ arithmetic.size };

    ghost width_law: { WIDTH ≡ width arithmetic };

    // What every field owes.
    ghost laws: { FieldLaws arithmetic inverted };
}
