//! What is said of a call below its line.
ghost use Rattle.std.specs.Prelude.{◌≡◌, ◌++◌, OnOk, List, ℕ, string_bytes};
ghost use Rattle.sk_insn.specs.declared.record.Record.{Record};

use sk_insn::Record;
use std::alloc::AllocError;

/// Whoever has more to say of a call than its verdicts.
pub trait Remarks {
    // What is said of a call.
    ghost remark: { Self → Record → List ℕ };

    /// Adds it, in whole lines.
    fn push(&self, text: &mut String, call: &Record) -> Result<(), AllocError>
        ensures pushed { OnOk result (string_bytes text.new ≡ string_bytes text.old ++ remark self.now call.now) };
}
