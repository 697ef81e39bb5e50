//! Each call by its number.

ghost use Rattle.std.specs.Prelude.{◌≡◌, IsTrue, IfOk, OnErr, Some};
ghost use Rattle.std.specs.Option.{is_some};
ghost use Rattle.sk_names.specs.Syscalls.{syscall_of};
ghost use Rattle.sk_world.specs.World.{at, is_alive};
ghost use Rattle.sk_world.specs.Rules.{IsWorld};
ghost use Rattle.sk_machine.specs.Memory.{may_grow};
ghost use Rattle.sk_machine.specs.Performing.{row, performed};
ghost use Rattle.sk_kernel.specs.Rows.{ComesTo};

use crate::caller::caller;
use crate::outcome::{ids, returned};
use crate::own::{OwnCall, perform_own};
use crate::{groups, prctl, processes, seccomp};
use sk_insn::Record;
use sk_machine::{Images, Outcome, Syscall};
use sk_world::{Errno, ProcStore};
use std::alloc::{AllocError, Global};

/// Performs a call of a process that lives. Whether its filters let the call through is asked before.
pub fn perform<S: ProcStore>(
    store: &mut S,
    declared: &Images,
    alloc: Global,
    pid: u32,
    call: &Record,
) -> Result<Outcome, AllocError>
    requires rules { IsWorld (S.contents store.old) }
    requires alive { IsTrue (is_alive (at (S.contents store.old) pid)) }
    ensures performed { IfOk result (λ outcome.
        ComesTo (S.contents store.old) pid (λ w body. performed declared.now w pid body call.now) outcome (S.contents store.new)) }
    ensures memory { OnErr result (IsTrue (may_grow declared.now (S.contents store.old) pid (syscall_of call.now.nr) call.now)) }
    ensures kept { OnErr result (S.contents store.new ≡ S.contents store.old) }
    ensures rules { IsWorld (S.contents store.new) }
{
    match Syscall::of(call.nr) {
        Some(which) => perform_known(store, declared, alloc, pid, which, call),
        None => Ok(Outcome::failed(Errno::Enosys)),
    }
}

fn perform_known<S: ProcStore>(
    store: &mut S,
    declared: &Images,
    alloc: Global,
    pid: u32,
    which: Syscall,
    call: &Record,
) -> Result<Outcome, AllocError>
    requires rules { IsWorld (S.contents store.old) }
    requires alive { IsTrue (is_alive (at (S.contents store.old) pid)) }
    ensures performed { IfOk result (λ outcome.
        ComesTo (S.contents store.old) pid (λ w body. row declared.now w pid body (Some which) call.now) outcome (S.contents store.new)) }
    ensures memory { OnErr result (IsTrue (may_grow declared.now (S.contents store.old) pid (Some which) call.now)) }
    ensures kept { OnErr result (S.contents store.new ≡ S.contents store.old) }
    ensures rules { IsWorld (S.contents store.new) }
{
    match which {
        Syscall::Fork => processes::fork(store, pid),
        Syscall::Prctl => prctl::prctl(store, declared, alloc, pid, call),
        Syscall::Seccomp => seccomp::seccomp(store, declared, alloc, pid, call),
        Syscall::RtSigaction => perform_own(store, declared, alloc, pid, OwnCall::Sigaction, call),
        Syscall::RtSigprocmask => perform_own(
            store,
            declared,
            alloc,
            pid,
            OwnCall::Sigprocmask,
            call,
        ),
        Syscall::RtSigreturn => perform_own(store, declared, alloc, pid, OwnCall::Sigreturn, call),
        Syscall::RtSigpending => Ok(Outcome::Signals(caller(store, pid).body.signals.pending())),
        Syscall::SchedYield => Ok(returned(Ok(0))),
        Syscall::Pause => perform_own(store, declared, alloc, pid, OwnCall::Pause, call),
        Syscall::Getpid => Ok(returned(Ok(pid))),
        Syscall::Getppid => Ok(returned(Ok(caller(store, pid).links.parent))),
        Syscall::Execve => perform_own(store, declared, alloc, pid, OwnCall::Execve, call),
        Syscall::Exit => Ok(processes::exit(store, pid, call)),
        Syscall::ExitGroup => Ok(processes::exit(store, pid, call)),
        Syscall::Wait4 => Ok(crate::wait4(store, pid, call)),
        Syscall::Kill => Ok(processes::kill(store, pid, call)),
        Syscall::Getuid => Ok(returned(Ok(caller(store, pid).body.creds.real))),
        Syscall::Geteuid => Ok(returned(Ok(caller(store, pid).body.creds.effective))),
        Syscall::Getresuid => Ok(ids(caller(store, pid).body.creds)),
        Syscall::Setuid => perform_own(store, declared, alloc, pid, OwnCall::Setuid, call),
        Syscall::Setresuid => perform_own(store, declared, alloc, pid, OwnCall::Setresuid, call),
        Syscall::Setpgid => Ok(groups::setpgid(store, pid, call)),
        Syscall::Setsid => Ok(groups::setsid(store, pid)),
        Syscall::Getpgrp => Ok(returned(Ok(caller(store, pid).links.group))),
        Syscall::Getpgid => Ok(groups::getpgid(store, pid, call)),
        Syscall::Getsid => Ok(groups::getsid(store, pid, call)),
    }
}
