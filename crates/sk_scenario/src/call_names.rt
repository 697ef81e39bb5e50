//! The calls by their names.
ghost use Rattle.std.specs.Prelude.{◌≡◌};
ghost use Rattle.sk_names.specs.Syscalls.{syscall_named};

use sk_names::Syscall;

// The call with this name, if the kernel has it.
#[inline(always)]
pub(crate) fn call_named(name: &[u8]) -> Option<Syscall>
    ensures call { result ≡ syscall_named name.now }
{
    match name {
        b"rt_sigaction" => Some(Syscall::RtSigaction),
        b"rt_sigprocmask" => Some(Syscall::RtSigprocmask),
        b"rt_sigreturn" => Some(Syscall::RtSigreturn),
        b"sched_yield" => Some(Syscall::SchedYield),
        b"pause" => Some(Syscall::Pause),
        b"getpid" => Some(Syscall::Getpid),
        b"fork" => Some(Syscall::Fork),
        b"execve" => Some(Syscall::Execve),
        b"exit" => Some(Syscall::Exit),
        b"wait4" => Some(Syscall::Wait4),
        b"kill" => Some(Syscall::Kill),
        b"getuid" => Some(Syscall::Getuid),
        b"setuid" => Some(Syscall::Setuid),
        b"geteuid" => Some(Syscall::Geteuid),
        b"setpgid" => Some(Syscall::Setpgid),
        b"getppid" => Some(Syscall::Getppid),
        b"getpgrp" => Some(Syscall::Getpgrp),
        b"setsid" => Some(Syscall::Setsid),
        b"setresuid" => Some(Syscall::Setresuid),
        b"getresuid" => Some(Syscall::Getresuid),
        b"getpgid" => Some(Syscall::Getpgid),
        b"getsid" => Some(Syscall::Getsid),
        b"rt_sigpending" => Some(Syscall::RtSigpending),
        b"prctl" => Some(Syscall::Prctl),
        b"exit_group" => Some(Syscall::ExitGroup),
        b"seccomp" => Some(Syscall::Seccomp),
        _ => Syscall::named(name),
    }
}
