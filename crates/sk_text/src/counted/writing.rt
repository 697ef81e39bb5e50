//! A counted writer is a sink.
use super::{Counted, noted};
use crate::sink::Sink;
use std::io;
use std::io::{ErrorKind, Write};

impl<T: Write> Sink for Counted<T> {
    ghost use Rattle.sk_text.specs.Counted.{inner_of, failures_of};

    ghost contents = { λ c. T.contents (inner_of c) };

    ghost failed = { λ c. failures_of c };

    fn write(&mut self, bytes: &[u8]) -> io::Result<usize> {
        let answer = match self.inner.write(bytes) {
            Ok(0) if !bytes.is_empty() => Err(io::Error::from(ErrorKind::WriteZero)),
            answer => answer,
        };
        self.failures = noted(self.failures, &answer);
        answer
    }

    fn failures(&self) -> u64 {
        self.failures
    }
}
