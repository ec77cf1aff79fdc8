// How bytes and board numbers are printed.
ghost use Rattle.std.specs.Prelude.{◌≡◌, take};

use std::fmt;

/// At most the first `count` bytes.
pub(crate) fn first(bytes: &[u8], count: usize) -> &[u8]
    ensures { result.now ≡ take count bytes.now }
{
    bytes.get(..count).unwrap_or(bytes)
}

/// Bytes in hexadecimal, two digits each, with a text after each byte.
#[derive(Clone, Copy)]
pub(crate) struct Hex<'a> {
    bytes: &'a [u8],
    after: &'static str,
}

/// Bytes in hexadecimal, one after another.
pub(crate) fn whole(bytes: &[u8]) -> Hex<'_> {
    Hex { bytes, after: "" }
}

/// Bytes in hexadecimal, with a space after each.
pub(crate) fn spaced(bytes: &[u8]) -> Hex<'_> {
    Hex { bytes, after: " " }
}

impl fmt::Display for Hex<'_> {
    fn fmt<W: fmt::Write>(&self, f: &mut fmt::Formatter<W>) -> fmt::Result {
        for byte in self.bytes {
            write!(f, "{byte:02x}{}", self.after)?;
        }
        Ok(())
    }
}

/// Bytes as text in quotes, with a dot for each that is no printable character.
#[derive(Clone, Copy)]
pub(crate) struct Text<'a>(pub(crate) &'a [u8]);

impl fmt::Display for Text<'_> {
    fn fmt<W: fmt::Write>(&self, f: &mut fmt::Formatter<W>) -> fmt::Result {
        f.write_str("\"")?;
        for byte in self.0 {
            let is_printable = byte.is_ascii_graphic() || *byte == b' ';
            f.write_char(char::from(if is_printable { *byte } else { b'.' }))?;
        }
        f.write_str("\"")
    }
}

/// Boards by their numbers, with a space before each.
#[derive(Clone, Copy)]
pub(crate) struct Boards<'a>(pub(crate) &'a [u16]);

impl fmt::Display for Boards<'_> {
    fn fmt<W: fmt::Write>(&self, f: &mut fmt::Formatter<W>) -> fmt::Result {
        for board in self.0 {
            write!(f, " {board}")?;
        }
        Ok(())
    }
}

/// A design by its length and its first bytes.
#[derive(Clone, Copy)]
pub(crate) struct Start<'a>(pub(crate) &'a [u8]);

impl fmt::Display for Start<'_> {
    fn fmt<W: fmt::Write>(&self, f: &mut fmt::Formatter<W>) -> fmt::Result {
        let begins = first(self.0, 12);
        write!(
            f,
            "{} bytes: {}{}",
            self.0.len(),
            spaced(begins),
            Text(begins)
        )
    }
}
