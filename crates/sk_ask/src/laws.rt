//! Laws on what is asked. No program calls these functions: the contract of each is the law.
ghost use Rattle.sk_ask.specs.Architectures.{AnswersTheArchitecture};
ghost use Rattle.sk_ask.specs.WorkedEndings.{ExpectsWork, NearestWorks, SmallerWorks};

/// What a chain for an architecture answers to a call of x86-64, the chain itself answers to the same call of the architecture.
pub fn answers_the_architecture()
    ensures law { AnswersTheArchitecture }
{}

/// Endings of `ask filter --smaller` are as they were written by hand.
pub fn worked_smaller()
    ensures works { SmallerWorks }
{}

/// And so is what `ask expect` says of its policy.
pub fn worked_expects()
    ensures works { ExpectsWork }
{}

/// The names that may be meant are those that people meant.
pub fn worked_nearest()
    ensures works { NearestWorks }
{}
