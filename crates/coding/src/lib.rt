//! The Reed-Solomon code over any field: how a block becomes one fragment for each board, and how any t + 1 of them give it back.
#![tactic(auto)]

mod chosen;
mod commitment;
mod decoding;
mod encoding;
mod fragments;
mod pieces;

pub use commitment::{commit, digest_of};
pub use decoding::{Undecodable, decode};
pub use encoding::{Unencodable, encode_fragment, encode_fragments, encode_share};
