//! Owned bytes that are text by convention.

ghost use Rattle.std.specs.Prelude.{◌≡◌, IfOk};
ghost use Rattle.bstr.specs.BStr.{bstr_bytes};

use bstr::BStr;
use std::alloc::{AllocError, Global};
use std::fmt;
use std::marker::Model;

/// Bytes that are text by convention, such as a path or a message. Clauses compare only the bytes.
#[derive(Drop)]
pub struct ByteText {
    bytes: Vec<u8>,
}

impl Model for ByteText {
    ghost use Rattle.std.specs.Prelude.{List, ℕ};

    ghost Value = { List ℕ };

    ghost view = { λ t. t.bytes.items };
}

impl ByteText {
    /// Returns a text of these bytes, without a copy.
    pub fn new(bytes: Vec<u8>) -> ByteText
        ensures { result ≡ bytes.items }
    {
        ByteText { bytes }
    }

    /// Returns a text that copies these bytes.
    ///
    /// # Errors
    ///
    /// Returns an error if an allocation fails.
    pub fn from_slice(alloc: Global, bytes: &[u8]) -> Result<ByteText, AllocError>
        ensures { IfOk result (λ t. t ≡ bytes.now) }
    {
        let bytes = Vec::from_slice(alloc, bytes)?;
        Ok(ByteText { bytes })
    }

    /// Returns the bytes.
    pub fn as_bytes(&self) -> &[u8]
        ensures { result.now ≡ self.now }
    {
        self.bytes.as_slice()
    }

    /// Returns the bytes as a borrowed byte string, the form in which paths are passed.
    pub fn as_bstr(&self) -> BStr<'_>
        ensures { bstr_bytes result ≡ self.now }
    {
        BStr::new(self.bytes.as_slice())
    }
}

impl fmt::Display for ByteText {
    fn fmt<W: fmt::Write>(&self, f: &mut fmt::Formatter<W>) -> fmt::Result {
        let text = self.as_bstr();
        write!(f, "{text}")
    }
}

impl fmt::Debug for ByteText {
    fn fmt<W: fmt::Write>(&self, f: &mut fmt::Formatter<W>) -> fmt::Result {
        let text = self.as_bstr();
        write!(f, "{text:?}")
    }
}
