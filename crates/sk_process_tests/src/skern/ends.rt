//! Readers and writers in memory that move a few bytes a call, and go wrong at a call of their own.
use std::alloc::Global;
use std::cmp::min;
use std::io;
use std::io::{ErrorKind, Read, Write};

/// How one call of an end goes wrong.
#[derive(Clone, Copy, Debug, PartialEq, Eq)]
pub enum Trouble {
    /// It fails.
    Error,
    /// It moves no byte, though there are some.
    Nothing,
}

/// Gives the bytes of a text, at most `step` of them a call.
#[derive(Drop)]
pub struct Reader<'a> {
    pub left: &'a [u8],
    pub step: usize,
    /// The calls before the one that fails.
    pub good: u64,
}

impl<'a> Reader<'a> {
    /// A reader that gives as much as it is asked for.
    pub fn new(text: &'a [u8]) -> Reader<'a> {
        Reader {
            left: text,
            step: usize::MAX,
            good: u64::MAX,
        }
    }
}

impl Read for Reader<'_> {
    fn read(&mut self, buffer: &mut [u8]) -> io::Result<usize> {
        if self.good == 0 {
            return Err(io::Error::from(ErrorKind::Interrupted));
        }
        self.good -= 1;
        let count = min(self.step, min(buffer.len(), self.left.len()));
        let (front, left) = self.left.split_at(count);
        buffer[..count].copy_from_slice(front);
        self.left = left;
        Ok(count)
    }
}

/// Keeps the bytes that it takes, at most `step` of them a call.
#[derive(Drop)]
pub struct Writer {
    pub held: Vec<u8>,
    pub step: usize,
    /// The calls that fail at first.
    pub bad: u64,
    /// The calls before the one that goes wrong.
    pub good: u64,
    pub trouble: Trouble,
}

impl Writer {
    /// A writer that takes whatever it is given.
    pub fn new(alloc: Global) -> Writer {
        Writer {
            held: Vec::new(alloc),
            step: usize::MAX,
            bad: 0,
            good: u64::MAX,
            trouble: Trouble::Error,
        }
    }
}

impl Write for Writer {
    fn write(&mut self, bytes: &[u8]) -> io::Result<usize> {
        if self.bad > 0 {
            self.bad -= 1;
            return Err(io::Error::from(ErrorKind::Other));
        }
        if self.good == 0 {
            return match self.trouble {
                Trouble::Error => Err(io::Error::from(ErrorKind::Interrupted)),
                Trouble::Nothing => Ok(0),
            };
        }
        self.good -= 1;
        let count = min(self.step, bytes.len());
        self.held.extend_from_slice(&bytes[..count])?;
        Ok(count)
    }

    fn flush(&mut self) -> io::Result<()> {
        Ok(())
    }
}
