//! The extensions of a file, all of which have to be known, or of those that may be skipped.

ghost use Rattle.std.specs.Prelude.{◌≡◌, OnOk, IfErr};
ghost use Rattle.git_index.specs.File.{AreExtensions, is_known};
ghost use Rattle.git_index.specs.Refusals.{NoExtensionAt};

use crate::cursor::Cursor;
use crate::fault::Fault;

/// Bytes that begin with no extension that is known or may be skipped, and why not.
#[derive(Clone, Copy)]
pub(crate) struct NoExtension<'a> {
    pub(crate) rest: &'a [u8],
    pub(crate) fault: Fault,
}

impl<'a> Cursor<'a> {
    ghost use Rattle.git_index.specs.Reading.{Reads, content_at, extension_at, extension_name_at};

    /// Takes an extension that is known or may be skipped: its name and its content.
    #[tactic(auto, unfolding(crate::specs::Reading::extension_at))]
    fn extension(&mut self) -> Result<(&'a [u8], &'a [u8]), Fault>
        ensures { Reads (λ x. ((x.0.now, x.1.now), self.new.rest.now)) result (extension_at self.old.rest.now) }
    {
        let name = self.extension_name()?;
        if !is_known(name) {
            return Err(Fault::Required);
        }
        let content = self.content()?;
        Ok((name, content))
    }

    #[tactic(auto, unfolding(crate::specs::Reading::extension_name_at))]
    fn extension_name(&mut self) -> Result<&'a [u8], Fault>
        ensures { Reads (λ name. (name.now, self.new.rest.now)) result (extension_name_at self.old.rest.now) }
    {
        self.take(4)
    }

    /// Takes a content, after its length.
    #[tactic(auto, unfolding(crate::specs::Reading::content_at))]
    fn content(&mut self) -> Result<&'a [u8], Fault>
        ensures { Reads (λ content. (content.now, self.new.rest.now)) result (content_at self.old.rest.now) }
    {
        let len = self.u32()?;
        self.take(len as usize)
    }
}

/// Returns whether an extension is `sdir` of a sparse index, or may be skipped by whoever doesn't know it.
fn is_known(name: &[u8]) -> bool
    ensures { result ≡ is_known name.now }
{
    matches!(name, [b'A'..=b'Z', ..]) || name == b"sdir".as_slice()
}

/// Checks that these bytes are extensions that are known or may be skipped, one after the other.
pub(crate) fn check_extensions(bytes: &[u8]) -> Result<(), NoExtension<'_>>
    ensures ok { OnOk result (AreExtensions bytes.now) }
    ensures refused { IfErr result (λ e. NoExtensionAt bytes.now e.rest.now e.fault) }
{
    let mut cursor = Cursor { rest: bytes };
    'extensions: while !cursor.rest.is_empty() {
        let rest = cursor.rest;
        match cursor.extension() {
            Ok(_extension) => {}
            Err(fault) => return Err(NoExtension { rest, fault }),
        }
    }
    Ok(())
}
