//! What a log tells of an argument.
ghost use Rattle.std.specs.Prelude.{◌≡◌};
ghost use Rattle.sk_replay.specs.Calls.{is_unknown, number_or_0};

/// An argument of a call, as far as a log tells it.
#[derive(Clone, Copy, Debug, Default, PartialEq, Eq, Hash)]
pub enum Value {
    /// This number of 64 bits.
    Told(u64),
    /// None: a text, a structure, a list, a name that no table has, or nothing at all.
    #[default]
    Unknown,
}

impl Value {
    /// The number, or 0 where it is not known.
    pub(crate) fn number_or_0(self) -> u64
        ensures number { result ≡ number_or_0 self }
    {
        match self {
            Value::Told(number) => number,
            Value::Unknown => 0,
        }
    }

    /// Whether the log tells no number.
    pub(crate) fn is_unknown(self) -> bool
        ensures unknown { result ≡ is_unknown self }
    {
        match self {
            Value::Told(_) => false,
            Value::Unknown => true,
        }
    }
}
