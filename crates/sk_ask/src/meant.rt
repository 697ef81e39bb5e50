//! What the word before FILEs stands for in `ask why`.
ghost use Rattle.std.specs.Prelude.{◌≡◌, IfOk};
ghost use Rattle.sk_ask.specs.Whys.{hidden_in, logged_in, record_meant, undecided};

use sk_filter::Chain;
use sk_insn::Record;
use sk_names::Architecture;
use sk_replay::{Call, Judged};
use std::alloc::{AllocError, Global};

/// A call.
#[derive(Clone, Copy, Debug)]
pub enum Meant {
    /// The word is the call, with its arguments.
    Whole(Record),
    /// The word is a line of the kernel, which tells of a call.
    Logged(Call),
}

impl Meant {
    /// What a filter sees of it on an architecture.
    pub(crate) fn record(&self, architecture: Architecture) -> Record
        ensures record { result ≡ record_meant architecture self.now }
    {
        match self {
            Meant::Whole(call) => *call,
            Meant::Logged(call) => call.record(architecture),
        }
    }

    /// What the kernel did with it, by its line.
    pub(crate) fn logged(&self) -> Option<u32>
        ensures logged { result ≡ logged_in self.now }
    {
        match self {
            Meant::Whole(_) => None,
            Meant::Logged(call) => call.logged,
        }
    }

    /// The argument that the verdict of a chain depends on, from 0 on, where it is not known.
    pub(crate) fn hidden(
        &self,
        alloc: Global,
        architecture: Architecture,
        chain: &Chain,
    ) -> Result<Option<usize>, AllocError>
        ensures hidden { IfOk result (λ hidden. hidden ≡ hidden_in architecture chain.now self.now) }
    {
        match self {
            Meant::Whole(_) => Ok(None),
            Meant::Logged(call) => {
                let judged = Judged::of(alloc, architecture, chain, call)?;
                Ok(undecided(judged))
            }
        }
    }
}

fn undecided(judged: Judged) -> Option<usize>
    ensures argument { result ≡ undecided judged }
{
    match judged {
        Judged::Verdict(_) => None,
        Judged::Undecided(argument) => Some(argument),
    }
}
