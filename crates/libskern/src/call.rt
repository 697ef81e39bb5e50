//! A call in the shape of C.
ghost use Rattle.std.specs.Prelude.{◌≡◌};
ghost use Rattle.libskern.specs.Shapes.{record_of, call_of};

use sk_insn::Record;

/// `struct seccomp_data` of linux/seccomp.h: the number, an `AUDIT_ARCH_*`, the instruction pointer, and the arguments.
#[repr(C)]
#[derive(Clone, Copy, Debug, PartialEq, Eq)]
pub struct Call {
    pub nr: u32,
    pub arch: u32,
    pub instruction_pointer: u64,
    pub args: [u64; 6],
}

impl Call {
    /// What a filter sees of it.
    pub(crate) fn record(&self) -> Record
        ensures record { result ≡ record_of self.now }
    {
        Record {
            nr: self.nr,
            arch: self.arch,
            ip: self.instruction_pointer,
            args: self.args,
        }
    }

    /// The call that a filter sees so.
    pub(crate) fn of(it: &Record) -> Call
        ensures call { result ≡ call_of it.now }
    {
        Call {
            nr: it.nr,
            arch: it.arch,
            instruction_pointer: it.ip,
            args: it.args,
        }
    }
}
