//! Polynomials over any field: their values, and the polynomial through given points.
#![tactic(auto)]

mod codes;
mod differences;
mod horner;
mod interpolation;

pub use codes::rising;
pub use horner::value_at;
pub use interpolation::Basis;

/// The most codes of a basis, and coefficients of a row.
const MOST: usize = 6;
