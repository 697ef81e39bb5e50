//! Any reader or writer of std, with a count of its failures.
ghost use Rattle.std.specs.Prelude.{◌≡◌};
ghost use Rattle.sk_text.specs.Failures.{count_after};

mod reading;
mod writing;

use std::io;

/// A reader or a writer, and how many of its calls have failed. Each call is one call of it: what failed is answered,
/// and not tried again. (No contract of std's reader sees that; the tests count its calls.)
#[derive(Drop)]
pub struct Counted<T> {
    inner: T,
    failures: u64,
}

impl<T> Counted<T> {
    ghost use Rattle.sk_text.specs.Counted.{inner_of, failures_of};

    /// The same end, of which no failure is counted yet.
    pub fn new(inner: T) -> Self
        ensures same { inner_of result ≡ inner }
        ensures none { failures_of result ≡ 0 }
    {
        Counted { inner, failures: 0 }
    }

    /// The end itself, without its count.
    pub fn into_inner(self) -> T
        ensures same { result ≡ inner_of self }
    {
        self.inner
    }
}

// The count of failures after one more answer.
fn noted(failures: u64, answer: &io::Result<usize>) -> u64
    ensures counted { result ≡ count_after failures answer.now }
{
    match answer {
        Ok(_) => failures,
        Err(_) => failures.saturating_add(1),
    }
}
