//! A cursor over the bytes of a file, which takes its numbers one after the other.

ghost use Rattle.std.specs.Prelude.{◌<◌, IfOk};
ghost use Rattle.git_index.specs.Reading.{Reads, byte_at, taken_at, u16_at, u32_at, width_at};

use crate::fault::Fault;
use crate::number::{FOUR_BYTES, THREE_BYTES, TWO_BYTES};

/// The bytes of a file that weren't taken yet. After a fault these are any of those before.
#[derive(Clone, Copy)]
pub(crate) struct Cursor<'a> {
    pub(crate) rest: &'a [u8],
}

impl<'a> Cursor<'a> {
    /// Takes this many bytes.
    #[inline]
    pub(crate) fn take(&mut self, len: usize) -> Result<&'a [u8], Fault>
        ensures { Reads (λ x. (x.now, self.new.rest.now)) result (taken_at len self.old.rest.now) }
    {
        if self.rest.len() < len {
            return Err(Fault::Truncated);
        }
        let (front, rest) = self.rest.split_at(len);
        self.rest = rest;
        Ok(front)
    }

    /// Takes a big-endian number of two bytes.
    #[inline]
    #[tactic(auto, unfolding(crate::specs::Reading::u16_at))]
    pub(crate) fn u16(&mut self) -> Result<u16, Fault>
        ensures { Reads (λ n. (n, self.new.rest.now)) result (u16_at self.old.rest.now) }
    {
        let bytes = self.take(2)?;
        Ok(u16::from_be_bytes([bytes[0], bytes[1]]))
    }

    /// Takes a big-endian number of four bytes.
    #[inline]
    #[tactic(auto, unfolding(crate::specs::Reading::u32_at))]
    pub(crate) fn u32(&mut self) -> Result<u32, Fault>
        ensures { Reads (λ n. (n, self.new.rest.now)) result (u32_at self.old.rest.now) }
    {
        let bytes = self.take(4)?;
        Ok(u32::from_be_bytes([bytes[0], bytes[1], bytes[2], bytes[3]]))
    }

    /// Takes one byte.
    #[inline]
    #[tactic(auto, unfolding(crate::specs::Reading::byte_at))]
    fn byte(&mut self) -> Result<usize, Fault>
        ensures reads { Reads (λ n. (n, self.new.rest.now)) result (byte_at self.old.rest.now) }
        ensures small { IfOk result (λ n. n < 256) }
    {
        match self.rest {
            [byte, rest @ ..] => {
                self.rest = rest;
                Ok(usize::from(*byte))
            }
            [] => Err(Fault::Truncated),
        }
    }

    /// Takes a number of variable width, of at most four bytes.
    #[tactic(auto, unfolding(crate::specs::Reading::width_at))]
    pub(crate) fn width(&mut self) -> Result<usize, Fault>
        ensures { Reads (λ n. (n, self.new.rest.now)) result (width_at self.old.rest.now) }
    {
        let a = self.byte()?;
        if a < 0x80 {
            return Ok(a);
        }
        let b = self.byte()?;
        if b < 0x80 {
            return Ok(TWO_BYTES + (a - 0x80) * 0x80 + b);
        }
        let c = self.byte()?;
        if c < 0x80 {
            let high = (a - 0x80) * 0x4000 + (b - 0x80) * 0x80;
            return Ok(THREE_BYTES + high + c);
        }
        let d = self.byte()?;
        if d < 0x80 {
            let high = (a - 0x80) * 0x20_0000 + (b - 0x80) * 0x4000 + (c - 0x80) * 0x80;
            return Ok(FOUR_BYTES + high + d);
        }
        Err(Fault::LongStrip)
    }
}
