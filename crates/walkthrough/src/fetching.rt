// Fetching a design from boards.
ghost use Rattle.std.specs.Prelude.{◌≡◌, ◌↔◌, IsTrue, IsOkAnd, IfOk, take};
ghost use Rattle.shape.specs.Lengths.{row_length};
ghost use Rattle.coding.specs.Decoding.{coefficients};

use crate::choices::Sorted;
use crate::keeping::Kept;
use coding::{Undecodable, decode};
use field::Field;
use hash::Hash;
use std::alloc::{AllocError, Global};

/// What came of a fetch.
#[derive(Drop)]
pub(crate) struct Fetched {
    pub(crate) left_out: Vec<u16>,
    pub(crate) used: Vec<u16>,
    /// The design, or why nothing was given back.
    pub(crate) design: Result<Vec<u8>, Undecodable>,
}

impl Fetched {
    /// Whether the design came back, byte for byte.
    pub(crate) fn gives(&self, design: &[u8]) -> bool
        ensures { IsTrue result ↔ IsOkAnd self.now.design (λ given. given.items ≡ design.now) }
    {
        self.design
            .as_ref()
            .is_ok_and(|given| given.as_slice() == design)
    }
}

/// Fetches a design of `size` bytes from the t + 1 lowest boards that may be used.
pub(crate) fn fetch<F: Field, D: Hash>(
    heap: Global,
    kept: &Kept<F, D>,
    boards: Sorted,
    size: usize,
) -> Result<Fetched, AllocError>
    ensures left { IfOk result (λ f. f.left_out.items ≡ boards.left_out.items) }
    ensures used { IfOk result (λ f. f.used.items ≡ take (row_length kept.now.shape.faults) boards.usable.items) }
    ensures design { IfOk result (λ f. IfOk f.design (λ d. d.items ≡ take size (coefficients F.arithmetic F.inverted kept.now.shape kept.now.fragments.items f.used.items))) }
{
    let Sorted {
        usable: mut used,
        left_out,
    } = boards;
    used.truncate(kept.shape.row_bytes());
    let mut block = vec![in heap; 0; kept.shape.block_bytes()]?;
    let answer = decode::<F>(kept.shape, &kept.fragments, &used, &mut block);
    block.truncate(size);
    Ok(Fetched {
        left_out,
        used,
        design: answer.map(|()| block),
    })
}
