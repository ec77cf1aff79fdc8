//! Lists of codes that rise, as those at which a basis is made.
ghost use Rattle.std.specs.Prelude.{◌≡◌};
ghost use Rattle.polynomial.specs.Interpolation.{admitted, rising as is_rising};

use crate::MOST;
use field::Field;

/// Whether these are one to six codes of the field in rising order.
pub(crate) fn is_admitted<F: Field>(codes: &[u16]) -> bool
    ensures { result ≡ admitted F.arithmetic codes.now }
{
    (1..=MOST).contains(&codes.len()) && rising(codes, 0, F::SIZE)
}

/// Whether the codes rise, the first at least `low` and all below `high`; codes that rise are distinct.
pub fn rising(codes: &[u16], low: u32, high: u32) -> bool
    ensures { result ≡ is_rising low high codes.now }
{
    let mut least = low;
    for code in codes {
        let code = u32::from(*code);
        if !(least..high).contains(&code) {
            return false;
        }
        least = code + 1;
    }
    true
}
