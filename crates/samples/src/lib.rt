//! Tests of the layers below against published values and against values that another implementation worked out.
#![tactic(auto)]

#[cfg(test)]
mod codes;
#[cfg(test)]
mod digests;
#[cfg(test)]
mod fields;
#[cfg(test)]
mod frames;
