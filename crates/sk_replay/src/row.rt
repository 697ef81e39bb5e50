//! A call of a log and its verdict.
ghost use Rattle.std.specs.Prelude.{◌≡◌, IfOk};
ghost use Rattle.sk_replay.specs.Replaying.{is_performed, row_of};

use crate::call::Call;
use crate::judged::Judged;
use sk_filter::Chain;
use sk_insn::Action;
use sk_names::Architecture;
use std::alloc::{AllocError, Global};

/// A call, how often it was made, and what filters say of it.
#[derive(Clone, Copy, Debug)]
pub struct Row {
    pub call: Call,
    pub times: u64,
    pub judged: Judged,
}

impl Row {
    /// The row of a call that was made so often, with what the chain says of it.
    pub(crate) fn of(
        alloc: Global,
        architecture: Architecture,
        chain: &Chain,
        call: Call,
        times: u64,
    ) -> Result<Row, AllocError>
        ensures row { IfOk result (λ row. row ≡ row_of architecture chain.now (call, times)) }
    {
        let judged = Judged::of(alloc, architecture, chain, &call)?;
        Ok(Row {
            call,
            times,
            judged,
        })
    }

    /// Whether the call is performed, whatever the arguments are that the log does not show.
    pub fn is_performed(&self) -> bool
        ensures performed { result ≡ is_performed self.now }
    {
        match self.judged {
            Judged::Verdict(value) => Action::of(value).performs(),
            Judged::Undecided(_) => false,
        }
    }
}
