//! Readers that tests use.

ghost use Rattle.std.specs.Prelude.{Some};
ghost use Rattle.status_index.specs.Given.{IsKnownOrCut};
ghost use Rattle.status_index.proofs.Gifts.{cut_at_once};

use status_index::{Fault, ReadBytes};

/// A reader of bytes, and then of the end or a fault.
#[derive(Clone, Copy)]
pub struct Piece<'a> {
    pub bytes: &'a [u8],
    pub fault: Option<Fault>,
}

impl<'a> ReadBytes for Piece<'a> {
    ghost left = { λ piece. Some (record { bytes = piece.bytes.now; fault = piece.fault }) };

    ghost may_give = { λ piece. IsKnownOrCut (record { bytes = piece.bytes.now; fault = piece.fault }) };

    ghost give_may_fail = { λ piece. cut_at_once (record { bytes = piece.bytes.now; fault = piece.fault }) };

    fn read_bytes(&mut self, buffer: &mut [u8]) -> Result<usize, Fault> {
        if self.bytes.is_empty() {
            return match self.fault {
                Some(fault) => Err(fault),
                None => Ok(0),
            };
        }
        let count = self.bytes.len().min(buffer.len());
        let (front, back) = self.bytes.split_at(count);
        buffer[..count].copy_from_slice(front);
        self.bytes = back;
        Ok(count)
    }
}
