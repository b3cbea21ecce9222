//! An output that fails, or takes few bytes at a call.

use std::alloc::Global;
use std::io::{self, ErrorKind, Write};

/// What one call of an output does in place of taking bytes.
#[derive(Clone, Copy)]
pub enum Fault {
    /// It fails by an error of this kind.
    Fails(ErrorKind),
    /// It succeeds without a byte.
    TakesNothing,
}

/// An output in memory. The call after so many bytes has a fault. Each other one takes bytes.
#[derive(Drop)]
pub struct Output {
    pub taken: Vec<u8>,
    /// The most bytes that one call takes.
    most: usize,
    /// The number of bytes before the fault.
    before: usize,
    /// The fault that is still to come.
    pub fault: Option<Fault>,
    /// How often it was called.
    pub calls: usize,
}

impl Output {
    /// Returns an output that takes all bytes.
    pub fn new(alloc: Global) -> Output {
        Output {
            taken: Vec::new(alloc),
            most: usize::MAX,
            before: usize::MAX,
            fault: None,
            calls: 0,
        }
    }

    /// Returns an output that takes one byte at each call.
    pub fn of_bytes(alloc: Global) -> Output {
        Output {
            most: 1,
            ..Output::new(alloc)
        }
    }

    /// Returns an output that takes so many bytes, has a fault at one call, and takes all bytes after it.
    pub fn faulty(alloc: Global, before: usize, fault: Fault) -> Output {
        Output {
            before,
            fault: Some(fault),
            ..Output::new(alloc)
        }
    }

    /// Returns how many bytes it takes before its fault.
    fn room(&self) -> usize {
        match self.fault {
            Some(_) => self.before.saturating_sub(self.taken.len()),
            None => usize::MAX,
        }
    }
}

impl Write for Output {
    fn write(&mut self, buf: &[u8]) -> io::Result<usize> {
        self.calls = self.calls.saturating_add(1);
        let room = self.room();
        if room == 0 {
            let fault = self.fault;
            self.fault = None;
            if let Some(Fault::Fails(kind)) = fault {
                return Err(io::Error::from(kind));
            }
            return Ok(0);
        }
        let count = buf.len().min(self.most).min(room);
        self.taken.extend_from_slice(&buf[..count])?;
        Ok(count)
    }

    fn flush(&mut self) -> io::Result<()> {
        Ok(())
    }
}
