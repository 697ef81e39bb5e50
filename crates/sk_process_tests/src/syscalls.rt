//! Rows of the calls over a store that keeps processes: what each comes to, over `perform`. What they refuse, and in which
//! order, the runs of `sk_laws` compute.
ghost use Rattle.sk_world.specs.Rules.{IsWorld};

use crate::world::{assert_alive, opening};
use sk_insn::Record;
use sk_kernel::perform;
use sk_machine::Outcome::{Ended, Executed, Ids, Returned, Signals, Told, Waits};
use sk_machine::{Images, Mark, Outcome};
use sk_names::Syscall;
use sk_table::{INIT, ListStore};
use sk_world::SigSet;
use sk_world::signals::SIGUSR1;
use std::alloc::{AllocError, Global};
use std::process::Abort;
use std::test::Fail;

/// A call: the pid of its caller, its first three arguments, and what it comes to.
type Row = (u32, Syscall, [u64; 3], Outcome);

/// -1 as a pid and as a user id.
const MINUS_ONE: u64 = 0xffff_ffff;

/// SIGUSR1 and SIGUSR2, which are 10 and 12.
const USERS: u64 = 1 << 9 | 1 << 11;

// A system with subreapers, the filter `ret allow`, and a program that is set-user-ID and user 5's.
fn declared(alloc: Global) -> Result<Images, AllocError> {
    let mut declared = Images {
        filters: Vec::new(alloc),
        programs: Vec::new(alloc),
        subreapers: true,
    };
    let allow = [0x06, 0, 0, 0, 0, 0, 0xff, 0x7f];
    declared.filters.push(Vec::from_array(alloc, allow)?)?;
    declared.programs.push(Mark {
        owner: 5,
        setuid: true,
    })?;
    Ok(declared)
}

// Makes the calls, one after the other, and compares what they come to.
fn come_to<R: Abort + AllocGlobal>(
    rt: &R,
    store: &mut ListStore,
    declared: &Images,
    rows: &[Row],
) -> Result<(), Fail>
    requires { IsWorld store.old }
    ensures { IsWorld store.new }
{
    for (pid, syscall, args, expected) in rows {
        let outcome = make_call(rt, store, declared, *pid, syscall.number(), *args)?;
        assert_eq!(rt; outcome, *expected, "{syscall:?} of {pid}");
    }
    Ok(())
}

// A call of a process that lives.
fn make_call<R: Abort + AllocGlobal>(
    rt: &R,
    store: &mut ListStore,
    declared: &Images,
    pid: u32,
    nr: u32,
    args: [u64; 3],
) -> Result<Outcome, AllocError>
    requires { IsWorld store.old }
    ensures { IsWorld store.new }
{
    assert_alive(rt, store, pid);
    let call = Record::native(nr, 0, [args[0], args[1], args[2], 0, 0, 0]);
    perform(store, declared, rt.alloc(), pid, &call)
}

fn told(pid: u32, status: u32) -> Outcome {
    Told { pid, status }
}

fn processes() -> [Row; 18] {
    [
        (INIT, Syscall::Fork, [0; 3], Returned(2)),
        (INIT, Syscall::Fork, [0; 3], Returned(3)),
        (2, Syscall::Getpid, [0; 3], Returned(2)),
        (2, Syscall::Getppid, [0; 3], Returned(1)),
        (INIT, Syscall::Setpgid, [2, 0, 0], Returned(0)),
        (INIT, Syscall::Getpgid, [2, 0, 0], Returned(2)),
        (2, Syscall::Getpgrp, [0; 3], Returned(2)),
        (3, Syscall::Setsid, [0; 3], Returned(3)),
        (INIT, Syscall::Getsid, [3, 0, 0], Returned(3)),
        (2, Syscall::SchedYield, [0; 3], Returned(0)),
        // PR_SET_CHILD_SUBREAPER, of whose mark all 64 bits count, and PR_GET_CHILD_SUBREAPER.
        (2, Syscall::Prctl, [36, 1 << 32, 0], Returned(0)),
        (2, Syscall::Prctl, [37, 0, 0], Returned(1)),
        // Of 511 the low 8 bits are told.
        (2, Syscall::Exit, [511, 0, 0], Ended(0xff00)),
        (INIT, Syscall::Wait4, [2, 0, 0], told(2, 0xff00)),
        (3, Syscall::ExitGroup, [1, 0, 0], Ended(0x100)),
        (INIT, Syscall::Wait4, [MINUS_ONE, 0, 0], told(3, 0x100)),
        (INIT, Syscall::Wait4, [MINUS_ONE, 0, 0], Returned(-10)),
        (INIT, Syscall::Pause, [0; 3], Waits),
    ]
}

fn rights() -> [Row; 16] {
    [
        // SECCOMP_SET_MODE_FILTER, and PR_GET_SECCOMP behind it.
        (INIT, Syscall::Seccomp, [1, 0, 0], Returned(0)),
        (INIT, Syscall::Prctl, [21, 0, 0], Returned(2)),
        // SECCOMP_GET_ACTION_AVAIL.
        (INIT, Syscall::Seccomp, [2, 0, 0x7fff_0000], Returned(0)),
        (INIT, Syscall::Seccomp, [2, 0, 0x7fff_0001], Returned(-95)),
        (
            INIT,
            Syscall::Setresuid,
            [1000, 1001, MINUS_ONE],
            Returned(0),
        ),
        (INIT, Syscall::Getresuid, [0; 3], Ids(1000, 1001, 0)),
        (INIT, Syscall::Getuid, [0; 3], Returned(1000)),
        (INIT, Syscall::Geteuid, [0; 3], Returned(1001)),
        (INIT, Syscall::Setuid, [7, 0, 0], Returned(-1)),
        (INIT, Syscall::Seccomp, [1, 0, 0], Returned(-13)),
        (INIT, Syscall::Execve, [1, 0, 0], Returned(-2)),
        (INIT, Syscall::Execve, [0; 3], Executed),
        (INIT, Syscall::Getresuid, [0; 3], Ids(1000, 5, 5)),
        // PR_SET_NO_NEW_PRIVS and PR_GET_NO_NEW_PRIVS.
        (INIT, Syscall::Prctl, [38, 1, 0], Returned(0)),
        (INIT, Syscall::Prctl, [39, 0, 0], Returned(1)),
        (INIT, Syscall::Seccomp, [1, 0, 0], Returned(0)),
    ]
}

#[test]
fn calls_come_to_these(rt: HostRuntime) -> Result<(), Fail> {
    let pending = Signals(SigSet::empty().with(SIGUSR1));
    // Blocked signals pend. SIG_IGN is 1, SIG_BLOCK 0.
    let signals = [
        (INIT, Syscall::Fork, [0; 3], Returned(2)),
        (2, Syscall::RtSigaction, [12, 1, 0], Returned(0)),
        (2, Syscall::RtSigprocmask, [0, USERS, 0], Returned(0)),
        (2, Syscall::Kill, [2, 10, 0], Returned(0)),
        (2, Syscall::RtSigpending, [0; 3], pending),
        (2, Syscall::RtSigreturn, [0; 3], Returned(-22)),
    ];
    for rows in [&processes()[..], &rights(), &signals] {
        let mut store = opening::<ListStore>(rt.alloc())?;
        come_to(&rt, &mut store, &declared(rt.alloc())?, rows)?;
    }
    Ok(())
}
