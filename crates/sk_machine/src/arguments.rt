//! What is in the registers of a call.
ghost use Rattle.std.specs.Prelude.{◌≡◌, ◌<◌};
ghost use Rattle.sk_machine.specs.Arguments.{register, unsigned, signed};

use sk_insn::Record;

/// All 64 bits of a register.
#[inline(always)]
pub fn register(call: &Record, n: usize) -> u64
    requires { n < 6 }
    ensures { result ≡ register call.now n }
{
    call.args[n]
}

/// The low 32 bits of a register, as a number without a sign.
#[inline(always)]
pub fn unsigned(call: &Record, n: usize) -> u32
    requires { n < 6 }
    ensures { result ≡ unsigned call.now n }
{
    (register(call, n) % (1 << 32)) as u32
}

/// The same bits as a number with a sign.
#[inline(always)]
pub fn signed(call: &Record, n: usize) -> i32
    requires { n < 6 }
    ensures { result ≡ signed call.now n }
{
    unsigned(call, n).cast_signed()
}
