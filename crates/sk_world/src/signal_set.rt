//! Sets of signals as the bits of a number.
ghost use Rattle.std.specs.Prelude.{⊤, ◌≡◌, ◌≢◌, ◌+◌, ◌-◌, ◌*◌, ◌^◌, ◌<◌, ◌≤◌, ◌↔◌, IsSome, IsNone, IfSome, [], ◌∷◌, codes};
ghost use Rattle.sk_world.specs.Sets as set;
ghost use Rattle.sk_world.specs.SignalSet.{IsSignal, IsLeast, signals_of, number_of, lowest, blockable};

use crate::signals::{SIGKILL, SIGSTOP};
use bitflags::{Flag, Flags, bitflag_items};
use std::marker::Model;

/// The bits of a set: bit n - 1 is signal n.
#[derive(Clone, Copy, PartialEq, Eq, Debug)]
struct SignalBits(u32);

bitflag_items! {
    impl SignalBits: u32 {
        const SIGHUP = 1 << 0;
        const SIGINT = 1 << 1;
        const SIGQUIT = 1 << 2;
        const SIGILL = 1 << 3;
        const SIGTRAP = 1 << 4;
        const SIGABRT = 1 << 5;
        const SIGBUS = 1 << 6;
        const SIGFPE = 1 << 7;
        const SIGKILL = 1 << 8;
        const SIGUSR1 = 1 << 9;
        const SIGSEGV = 1 << 10;
        const SIGUSR2 = 1 << 11;
        const SIGPIPE = 1 << 12;
        const SIGALRM = 1 << 13;
        const SIGTERM = 1 << 14;
        const SIGSTKFLT = 1 << 15;
        const SIGCHLD = 1 << 16;
        const SIGCONT = 1 << 17;
        const SIGSTOP = 1 << 18;
        const SIGTSTP = 1 << 19;
        const SIGTTIN = 1 << 20;
        const SIGTTOU = 1 << 21;
        const SIGURG = 1 << 22;
        const SIGXCPU = 1 << 23;
        const SIGXFSZ = 1 << 24;
        const SIGVTALRM = 1 << 25;
        const SIGPROF = 1 << 26;
        const SIGWINCH = 1 << 27;
        const SIGIO = 1 << 28;
        const SIGPWR = 1 << 29;
        const SIGSYS = 1 << 30;
    }
}

impl Flags for SignalBits {
    type Bits = u32;

    ghost exact = { ⊤ };

    ghost table = { (codes "SIGHUP", 2 ^ 0) ∷ (codes "SIGINT", 2 ^ 1) ∷ (codes "SIGQUIT", 2 ^ 2) ∷ (codes "SIGILL", 2 ^ 3) ∷
        (codes "SIGTRAP", 2 ^ 4) ∷ (codes "SIGABRT", 2 ^ 5) ∷ (codes "SIGBUS", 2 ^ 6) ∷ (codes "SIGFPE", 2 ^ 7) ∷
        (codes "SIGKILL", 2 ^ 8) ∷ (codes "SIGUSR1", 2 ^ 9) ∷ (codes "SIGSEGV", 2 ^ 10) ∷ (codes "SIGUSR2", 2 ^ 11) ∷
        (codes "SIGPIPE", 2 ^ 12) ∷ (codes "SIGALRM", 2 ^ 13) ∷ (codes "SIGTERM", 2 ^ 14) ∷ (codes "SIGSTKFLT", 2 ^ 15) ∷
        (codes "SIGCHLD", 2 ^ 16) ∷ (codes "SIGCONT", 2 ^ 17) ∷ (codes "SIGSTOP", 2 ^ 18) ∷ (codes "SIGTSTP", 2 ^ 19) ∷
        (codes "SIGTTIN", 2 ^ 20) ∷ (codes "SIGTTOU", 2 ^ 21) ∷ (codes "SIGURG", 2 ^ 22) ∷ (codes "SIGXCPU", 2 ^ 23) ∷
        (codes "SIGXFSZ", 2 ^ 24) ∷ (codes "SIGVTALRM", 2 ^ 25) ∷ (codes "SIGPROF", 2 ^ 26) ∷ (codes "SIGWINCH", 2 ^ 27) ∷
        (codes "SIGIO", 2 ^ 28) ∷ (codes "SIGPWR", 2 ^ 29) ∷ (codes "SIGSYS", 2 ^ 30) ∷ [] };

    ghost set_of = { λ s. s.0 };

    fn flags<'a>() -> &'a [Flag<SignalBits>] {
        SignalBits::FLAGS
    }

    fn bits(&self) -> u32 {
        self.0
    }

    fn from_bits_retain(bits: u32) -> SignalBits {
        SignalBits(bits)
    }
}

/// A set of signals, of the numbers 1 to 31: sigsetops(3).
#[derive(Clone, Copy, PartialEq, Eq, Debug)]
pub struct SigSet {
    flags: SignalBits,
}

impl Model for SigSet {
    ghost use Rattle.std.specs.Prelude.{◌<◌, ◌^◌};
    ghost use Rattle.sk_world.specs.Sets as set;
    ghost use Rattle.std.specs.Ordering.{nat_cmp};
    ghost use Rattle.std.specs.Coded.{coded_ℕ};

    ghost Value = { set.NumberSet };

    ghost coded = { set.code };

    ghost use Rattle.sk_world.specs.SignalSet.{signals_of, number_of};
    ghost use Rattle.sk_world.specs.views.SignalBits.{number_of-signals_of};

    ghost view = { λ s. signals_of s.flags.0 };

    ghost invariant = { λ s. s.flags.0 < 2 ^ 31 };

    ghost inverse = { λ v. record { flags = record { 0 = number_of v } } };

    ghost inverse_ok = { λ a h i. record { flags = record { 0 = number_of-signals_of a.flags.0 h i } } };
}

impl SigSet {
    /// The set with no signal: sigemptyset(3).
    pub fn empty() -> SigSet
        ensures { result ≡ set.empty }
    {
        SigSet {
            flags: SignalBits::empty(),
        }
    }

    /// The signals whose bits are set. Bit n - 1 is signal n, and bits above signal 31 are dropped.
    pub fn from_bits_truncate(bits: u64) -> SigSet
        ensures { result ≡ signals_of bits }
    {
        let known = bits & u64::from(u32::MAX);
        SigSet {
            flags: SignalBits::from_bits_truncate(known as u32),
        }
    }

    /// The bits of a `sigset_t`: bit n - 1 is signal n.
    pub fn bits(self) -> u32
        ensures value { result ≡ number_of self }
        ensures width { result < 2 ^ 31 }
        ensures back { signals_of result ≡ self }
    {
        self.flags.bits()
    }

    /// Whether the signal is a member: sigismember(3).
    pub fn contains(self, signal: u8) -> bool
        requires { IsSignal signal }
        ensures { result ≡ set.contains self signal }
    {
        self.flags.contains(flag(signal))
    }

    /// The set and the signal: sigaddset(3).
    pub fn with(self, signal: u8) -> SigSet
        requires { IsSignal signal }
        ensures { result ≡ set.insert self signal }
    {
        SigSet {
            flags: self.flags.union(flag(signal)),
        }
    }

    /// The set less the signal: sigdelset(3).
    pub fn without(self, signal: u8) -> SigSet
        requires { IsSignal signal }
        ensures { result ≡ set.remove self signal }
    {
        SigSet {
            flags: self.flags.difference(flag(signal)),
        }
    }

    /// The members of either set: sigorset(3).
    pub fn union(self, other: SigSet) -> SigSet
        ensures { result ≡ set.union self other }
    {
        SigSet {
            flags: self.flags.union(other.flags),
        }
    }

    /// The members that the other set does not have.
    pub fn difference(self, other: SigSet) -> SigSet
        ensures { result ≡ set.difference self other }
    {
        SigSet {
            flags: self.flags.difference(other.flags),
        }
    }

    /// The member with the lowest number.
    pub fn lowest(self) -> Option<u8>
        ensures value { result ≡ lowest self }
        ensures least { IfSome result (IsLeast self) }
        ensures empty { IsNone result ↔ (self ≡ set.empty) }
    {
        if self.flags.is_empty() {
            return None;
        }
        Some(self.flags.bits().trailing_zeros() as u8 + 1)
    }

    /// The set without SIGKILL and SIGSTOP, which no mask has.
    pub fn blockable(self) -> SigSet
        ensures { result ≡ blockable self }
    {
        self.without(SIGKILL).without(SIGSTOP)
    }
}

fn flag(signal: u8) -> SignalBits
    requires { IsSignal signal }
    ensures bit { result.0 ≡ 2 ^ (signal - 1) }
    ensures small { result.0 < 2 ^ 31 }
{
    SignalBits(1 << (signal - 1))
}
