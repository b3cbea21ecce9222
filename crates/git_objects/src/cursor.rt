//! Takes bytes one after the other.

/// The bytes that weren't taken yet.
#[derive(Clone, Copy)]
pub(crate) struct Cursor<'a> {
    pub(crate) rest: &'a [u8],
}

impl<'a> Cursor<'a> {
    /// Takes a byte. None if there is none.
    #[inline]
    pub(crate) fn byte(&mut self) -> Option<usize> {
        let (byte, rest) = self.rest.split_first()?;
        self.rest = rest;
        Some(usize::from(*byte))
    }

    /// Takes this many bytes. None if there are fewer.
    pub(crate) fn bytes(&mut self, len: usize) -> Option<&'a [u8]> {
        if len > self.rest.len() {
            return None;
        }
        let (bytes, rest) = self.rest.split_at(len);
        self.rest = rest;
        Some(bytes)
    }

    /// Takes a number of seven bits for each byte, the lowest ones first, which are put above `bits` bits that are
    /// known. The highest bit of a byte says that more follow. None if the bytes end, or if the number has more than
    /// nine bytes.
    pub(crate) fn number(&mut self, known: usize, bits: u32) -> Option<usize> {
        let mut number = known;
        for turn in 0..9u32 {
            let byte = self.byte()?;
            let shift = turn.saturating_mul(7).saturating_add(bits);
            number |= (byte & 0x7f).wrapping_shl(shift);
            if byte < 0x80 {
                return Some(number);
            }
        }
        None
    }
}
