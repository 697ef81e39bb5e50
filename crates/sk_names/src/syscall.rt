//! Each call of the kernel by its number and by its name.
ghost use Rattle.std.specs.Prelude.{◌≡◌, IfSome};
ghost use Rattle.sk_names.specs.Syscalls.{number_of, name_of, syscall_of, syscall_named};

/// The calls that the kernel has, by their names in the manual.
#[derive(Clone, Copy, PartialEq, Eq, Debug)]
pub enum Syscall {
    RtSigaction,
    RtSigprocmask,
    RtSigreturn,
    SchedYield,
    Pause,
    Getpid,
    Fork,
    Execve,
    Exit,
    Wait4,
    Kill,
    Getuid,
    Setuid,
    Geteuid,
    Setpgid,
    Getppid,
    Getpgrp,
    Setsid,
    Setresuid,
    Getresuid,
    Getpgid,
    Getsid,
    RtSigpending,
    Prctl,
    ExitGroup,
    Seccomp,
}

const SYSCALLS: [Syscall; 26] = [
    Syscall::RtSigaction,
    Syscall::RtSigprocmask,
    Syscall::RtSigreturn,
    Syscall::SchedYield,
    Syscall::Pause,
    Syscall::Getpid,
    Syscall::Fork,
    Syscall::Execve,
    Syscall::Exit,
    Syscall::Wait4,
    Syscall::Kill,
    Syscall::Getuid,
    Syscall::Setuid,
    Syscall::Geteuid,
    Syscall::Setpgid,
    Syscall::Getppid,
    Syscall::Getpgrp,
    Syscall::Setsid,
    Syscall::Setresuid,
    Syscall::Getresuid,
    Syscall::Getpgid,
    Syscall::Getsid,
    Syscall::RtSigpending,
    Syscall::Prctl,
    Syscall::ExitGroup,
    Syscall::Seccomp,
];

impl Syscall {
    /// The call of a number on x86-64, if the kernel has it.
    pub fn of(nr: u32) -> Option<Syscall>
        ensures call { result ≡ syscall_of nr }
        ensures number { IfSome result (λ call. number_of call ≡ nr) }
    {
        match nr {
            13 => Some(Syscall::RtSigaction),
            14 => Some(Syscall::RtSigprocmask),
            15 => Some(Syscall::RtSigreturn),
            24 => Some(Syscall::SchedYield),
            34 => Some(Syscall::Pause),
            39 => Some(Syscall::Getpid),
            57 => Some(Syscall::Fork),
            59 => Some(Syscall::Execve),
            60 => Some(Syscall::Exit),
            61 => Some(Syscall::Wait4),
            62 => Some(Syscall::Kill),
            102 => Some(Syscall::Getuid),
            105 => Some(Syscall::Setuid),
            107 => Some(Syscall::Geteuid),
            109 => Some(Syscall::Setpgid),
            110 => Some(Syscall::Getppid),
            111 => Some(Syscall::Getpgrp),
            112 => Some(Syscall::Setsid),
            117 => Some(Syscall::Setresuid),
            118 => Some(Syscall::Getresuid),
            121 => Some(Syscall::Getpgid),
            124 => Some(Syscall::Getsid),
            127 => Some(Syscall::RtSigpending),
            157 => Some(Syscall::Prctl),
            231 => Some(Syscall::ExitGroup),
            317 => Some(Syscall::Seccomp),
            _ => None,
        }
    }

    /// Its number on x86-64.
    pub fn number(self) -> u32
        ensures number { result ≡ number_of self }
        ensures found { syscall_of result ≡ Some self }
    {
        match self {
            Syscall::RtSigaction => 13,
            Syscall::RtSigprocmask => 14,
            Syscall::RtSigreturn => 15,
            Syscall::SchedYield => 24,
            Syscall::Pause => 34,
            Syscall::Getpid => 39,
            Syscall::Fork => 57,
            Syscall::Execve => 59,
            Syscall::Exit => 60,
            Syscall::Wait4 => 61,
            Syscall::Kill => 62,
            Syscall::Getuid => 102,
            Syscall::Setuid => 105,
            Syscall::Geteuid => 107,
            Syscall::Setpgid => 109,
            Syscall::Getppid => 110,
            Syscall::Getpgrp => 111,
            Syscall::Setsid => 112,
            Syscall::Setresuid => 117,
            Syscall::Getresuid => 118,
            Syscall::Getpgid => 121,
            Syscall::Getsid => 124,
            Syscall::RtSigpending => 127,
            Syscall::Prctl => 157,
            Syscall::ExitGroup => 231,
            Syscall::Seccomp => 317,
        }
    }

    /// Its name in the manual.
    pub fn name(self) -> &'static str
        ensures name { result.now ≡ name_of self }
        ensures found { syscall_named result.now ≡ Some self }
    {
        match self {
            Syscall::RtSigaction => "rt_sigaction",
            Syscall::RtSigprocmask => "rt_sigprocmask",
            Syscall::RtSigreturn => "rt_sigreturn",
            Syscall::SchedYield => "sched_yield",
            Syscall::Pause => "pause",
            Syscall::Getpid => "getpid",
            Syscall::Fork => "fork",
            Syscall::Execve => "execve",
            Syscall::Exit => "exit",
            Syscall::Wait4 => "wait4",
            Syscall::Kill => "kill",
            Syscall::Getuid => "getuid",
            Syscall::Setuid => "setuid",
            Syscall::Geteuid => "geteuid",
            Syscall::Setpgid => "setpgid",
            Syscall::Getppid => "getppid",
            Syscall::Getpgrp => "getpgrp",
            Syscall::Setsid => "setsid",
            Syscall::Setresuid => "setresuid",
            Syscall::Getresuid => "getresuid",
            Syscall::Getpgid => "getpgid",
            Syscall::Getsid => "getsid",
            Syscall::RtSigpending => "rt_sigpending",
            Syscall::Prctl => "prctl",
            Syscall::ExitGroup => "exit_group",
            Syscall::Seccomp => "seccomp",
        }
    }

    /// The call with this name, if the kernel has it.
    pub fn named(name: &[u8]) -> Option<Syscall>
        ensures call { result ≡ syscall_named name.now }
        ensures name { IfSome result (λ call. name_of call ≡ name.now) }
    {
        SYSCALLS
            .iter()
            .copied()
            .find(|call| call.name().as_bytes() == name)
    }
}
