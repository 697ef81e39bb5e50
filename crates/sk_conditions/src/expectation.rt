//! What is expected of a verdict, as a filter answers it in place of a verdict.
ghost use Rattle.std.specs.Prelude.{◌≡◌};
ghost use Rattle.std.specs.Option.{option_map};
ghost use Rattle.sk_conditions.specs.Comparing.{expectation_name, expectation_of, meets, value_of};

use sk_insn::Action;

/// What is expected of a verdict.
#[derive(Clone, Copy, Debug, PartialEq, Eq)]
pub enum Expectation {
    /// That the call is not performed.
    Refused,
    /// That it is.
    Performed,
    /// Nothing.
    Anything,
    /// That it is this one.
    Verdict(u32),
}

/// The value of the first expectation, and behind it those of the others: no action of seccomp(2) begins with these 16 bits.
const REFUSED: u32 = 0x0001_0001;

const PERFORMED: u32 = 0x0001_0002;

const ANYTHING: u32 = 0x0001_0003;

impl Expectation {
    /// The one for which a value stands.
    pub fn of(value: u32) -> Expectation
        ensures expectation { result ≡ expectation_of value }
    {
        match value {
            REFUSED => Expectation::Refused,
            PERFORMED => Expectation::Performed,
            ANYTHING => Expectation::Anything,
            _ => Expectation::Verdict(value),
        }
    }

    /// The value that stands for it.
    pub fn value(self) -> u32
        ensures value { result ≡ value_of self }
    {
        match self {
            Expectation::Refused => REFUSED,
            Expectation::Performed => PERFORMED,
            Expectation::Anything => ANYTHING,
            Expectation::Verdict(value) => value,
        }
    }

    /// Its word; a verdict has its own.
    pub fn name(self) -> Option<&'static str>
        ensures name { option_map (λ name. name.now) result ≡ expectation_name self }
    {
        match self {
            Expectation::Refused => Some("refused"),
            Expectation::Performed => Some("performed"),
            Expectation::Anything => Some("anything"),
            Expectation::Verdict(_) => None,
        }
    }

    // Whether a verdict is as it is expected.
    pub(crate) fn is_met_by(self, verdict: u32) -> bool
        ensures meets { result ≡ meets self verdict }
    {
        match self {
            Expectation::Refused => !Action::of(verdict).performs(),
            Expectation::Performed => Action::of(verdict).performs(),
            Expectation::Anything => true,
            Expectation::Verdict(value) => value == verdict,
        }
    }
}
