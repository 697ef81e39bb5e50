//! What a text of expectations expects of calls.
use sk_names::Architecture;

/// What a text expects of the calls of an architecture.
#[derive(Drop)]
pub struct Expectations {
    pub architecture: Architecture,
    /// Whether it says what is expected of calls of other architectures.
    pub says_others: bool,
    /// The filter that answers to each call the value of what is expected of its verdict, `struct sock_filter` for each instruction.
    pub image: Vec<u8>,
}
