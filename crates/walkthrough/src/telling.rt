// What is printed of a round.
ghost use Rattle.std.specs.Prelude.{◌≡◌, ◌↔◌, IfOk, IsOkAnd, IsTrue};

use crate::choices::last_board;
use crate::fetching::Fetched;
use crate::keeping::Kept;
use crate::shown::{Boards, Start, first, spaced, whole};
use field::Field;
use hash::Hash;
use shape::Shape;
use std::io;

/// Tells the lengths over a field by their letters, and how far a design of `length` bytes is filled up.
pub(crate) fn tell_sizes<F: Field>(
    rt: &HostRuntime,
    shape: Shape,
    length: usize,
) -> io::Result<()> {
    println!(rt;
        "    sizes       n = {}, R = {}, K = {}, S = {}, V = {}, Q = {}, G = {}; zero bytes added: {}",
        shape.boards(),
        shape.rows,
        shape.block_bytes(),
        shape.fragment_bytes::<F>(),
        shape.vector_bytes(),
        shape.share_rows(),
        shape.share_bytes::<F>(),
        shape.block_bytes().saturating_sub(length)
    )
}

/// Tells the start of a fragment, and of its digest or entry.
pub(crate) fn tell_fragment(
    rt: &HostRuntime,
    label: &str,
    board: u16,
    fragment: &[u8],
    digest: &[u8],
) -> io::Result<()> {
    println!(rt;
        "{label}{board}   {} {}",
        spaced(first(fragment, 8)),
        whole(digest)
    )
}

/// Tells the start of each fragment with as much of its digest as is to be shown, and the start of a share.
pub(crate) fn tell_fragments<F: Field, D: Hash>(
    rt: &HostRuntime,
    shown: usize,
    kept: &Kept<F, D>,
) -> io::Result<()> {
    let fragments = kept.fragments.chunks(kept.shape.fragment_bytes::<F>());
    let entries = kept.vector.chunks(32);
    for (board, (fragment, entry)) in (1..=last_board(kept.shape)).zip(fragments.zip(entries)) {
        tell_fragment(rt, "    board   ", board, fragment, first(entry, shown))?;
    }
    println!(rt; "    share of 1  {}", spaced(first(&kept.share, 8)))
}

/// Tells which boards were used and what came of it, and says whether the design came back.
pub(crate) fn tell_fetch(
    rt: &HostRuntime,
    label: &str,
    fetched: &Fetched,
    design: &[u8],
) -> io::Result<bool>
    ensures { IfOk result (λ back. IsTrue back ↔ IsOkAnd fetched.now.design (λ given. given.items ≡ design.now)) }
{
    println!(rt;
        "{label}{}; used:{}",
        Boards(&fetched.left_out),
        Boards(&fetched.used)
    )?;
    let is_back = fetched.gives(design);
    let end = if is_back {
        ", equal to the input, byte for byte"
    } else {
        ", NOT equal to the input"
    };
    match &fetched.design {
        Ok(given) => println!(rt; "    given back  {}{end}", Start(given))?,
        Err(why) => println!(rt; "    given back  nothing: {why}")?,
    }
    Ok(is_back)
}
