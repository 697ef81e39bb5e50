//! A counted reader is a source.
use super::{Counted, noted};
use crate::source::Source;
use std::io;
use std::io::Read;

impl<T: Read> Source for Counted<T> {
    ghost use Rattle.sk_text.specs.Counted.{inner_of, failures_of};

    ghost remaining = { λ c. T.remaining (inner_of c) };

    ghost failed = { λ c. failures_of c };

    fn read(&mut self, buffer: &mut [u8]) -> io::Result<usize> {
        let answer = self.inner.read(buffer);
        self.failures = noted(self.failures, &answer);
        answer
    }

    fn failures(&self) -> u64 {
        self.failures
    }
}
