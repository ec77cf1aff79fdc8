//! The field of 257 codes: the remainders after division by the prime 257.
#![tactic(auto)]

ghost use Rattle.std.specs.Prelude.{◌≡◌, ◌<◌, ◌≤◌, ◌⊎◌, refl};
ghost use Rattle.field257.specs.Gf257.{arithmetic, inverted, reciprocal};
ghost use Rattle.field257.specs.Laws;

use field::Field;

/// The number of codes, by which each operation divides to leave a code.
const PRIME: u16 = 257;

/// The inverse of each code below 256, and 0 at the code 0, which has none.
static INVERSES: [u8; 256] = *b"\
    \x00\x01\x81\x56\xc1\x67\x2b\x93\xe1\xc8\xb4\xbb\x96\xb2\xca\x78\xf1\x79\x64\xe6\x5a\x31\xde\xbe\x4b\x48\x59\xee\x65\xc3\x3c\xc7\
    \xf9\x94\xbd\xeb\x32\x84\x73\x91\x2d\xa3\x99\x06\x6f\x28\x5f\xaf\xa6\x15\x24\x7e\xad\x61\x77\xf3\xb3\xf8\xe2\x3d\x1e\x3b\xe4\x66\
    \xfd\x57\x4a\xea\xdf\x95\xf6\xb5\x19\xa9\x42\x18\xba\xf7\xc9\xf4\x97\xa5\xd2\x60\xcd\x7f\x03\x41\xb8\x1a\x14\xd1\xb0\x98\xd8\x2e\
    \x53\x35\x8b\x87\x12\x1c\x3f\x05\xd7\xa4\xb1\xf5\xbc\xe0\xfa\x2c\xda\x74\x7c\x26\x71\x86\x9f\x36\x0f\x11\x9e\x8c\x72\xdc\x33\x55\
    \xff\x02\xac\xce\x25\x8f\x75\x63\xf0\xf2\xcb\x62\x7b\x90\xdb\x85\x8d\x27\xd5\x07\x21\x45\x0c\x50\x5d\x2a\xfc\xc2\xe5\xef\x7a\x76\
    \xcc\xae\xd3\x29\x69\x51\x30\xed\xe7\x49\xc0\xfe\x82\x34\xa1\x2f\x5c\x6a\x0d\x38\x0a\x47\xe9\xbf\x58\xe8\x4c\x0b\x6c\x22\x17\xb7\
    \xaa\x04\x9b\x1d\xc6\xe3\xc4\x1f\x09\x4e\x0e\x8a\xa0\x54\x83\xdd\xec\x5b\x52\xa2\xd9\x92\xfb\x68\x5e\xd4\x70\x8e\x7d\xcf\x16\x44\
    \x6d\x08\x3a\xc5\x3e\x9c\x13\xa8\xb9\xb6\x43\x23\xd0\xa7\x1b\x9d\x88\x10\x89\x37\x4f\x6b\x46\x4d\x39\x20\x6e\xd6\x9a\x40\xab\x80";

/// The inverse of a code, or 0 for the code 0. The code 256 stands for -1, which is its own inverse and no byte.
fn inverse_of(a: u16) -> u16
    requires { a < 257 }
    ensures { result ≡ reciprocal a }
{
    if a < PRIME - 1 {
        u16::from(INVERSES[usize::from(a)])
    } else {
        a
    }
}

/// The operation's answer to two codes, and 0 to anything else.
fn on_codes<O: FnOnce(u16, u16) -> u16 + Drop>(a: u16, b: u16, operation: O) -> u16
    requires callable { a < 257 → b < 257 → O.pre operation a b }
    ensures codes { a < 257 → b < 257 → O.post operation a b result }
    ensures others { (257 ≤ a) ⊎ (257 ≤ b) → result ≡ 0 }
{
    if a < PRIME && b < PRIME {
        operation(a, b)
    } else {
        0
    }
}

/// The field whose codes are the remainders; the largest of them, 256, is no byte.
pub struct Field257;

/// The operations of numbers, each with the remainder of its result.
impl Field for Field257 {
    /// Each remainder is a code.
    const SIZE: u32 = 257;

    /// One code is no byte, so each takes two.
    const WIDTH: usize = 2;

    ghost SIZE = { 257 };

    ghost WIDTH = { 2 };

    ghost arithmetic = { arithmetic };

    ghost inverted = { inverted };

    ghost size_law = { refl };

    ghost width_law = { refl };

    ghost laws = { Laws.laws };

    /// The sum of two codes fits 16 bits, and its remainder is a code.
    fn sum(a: u16, b: u16) -> u16 {
        on_codes(a, b, |a, b| (a + b) % PRIME)
    }

    /// The prime is added first, so that nothing falls below 0.
    fn difference(a: u16, b: u16) -> u16 {
        on_codes(a, b, |a, b| (a + PRIME - b) % PRIME)
    }

    /// The product of two codes can pass 16 bits, so it is taken in 32.
    fn product(a: u16, b: u16) -> u16 {
        on_codes(
            a,
            b,
            |a, b| (u32::from(a) * u32::from(b) % u32::from(PRIME)) as u16,
        )
    }

    /// The inverse is read from its table.
    fn inverse(a: u16) -> u16 {
        if a < PRIME { inverse_of(a) } else { 0 }
    }
}
