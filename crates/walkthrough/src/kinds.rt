// The fields and the hashes that a round may take, by their names.
use std::fmt;

/// A field to reckon with.
#[derive(Clone, Copy)]
pub(crate) enum FieldKind {
    Field256,
    Field257,
}

impl fmt::Display for FieldKind {
    fn fmt<W: fmt::Write>(&self, f: &mut fmt::Formatter<W>) -> fmt::Result {
        f.write_str(match self {
            FieldKind::Field256 => "256",
            FieldKind::Field257 => "257",
        })
    }
}

/// A hash to tell fragments by.
#[derive(Clone, Copy)]
pub(crate) enum HashKind {
    Sha256,
    Fold,
}

impl fmt::Display for HashKind {
    fn fmt<W: fmt::Write>(&self, f: &mut fmt::Formatter<W>) -> fmt::Result {
        f.write_str(match self {
            HashKind::Sha256 => "SHA-256",
            HashKind::Fold => "Fold",
        })
    }
}
