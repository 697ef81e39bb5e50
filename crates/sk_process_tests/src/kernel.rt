//! The kernel over both stores: its functions once, on runs of which `sk_laws` computes the answers. `happen` is what each turn
//! of the reports in `skern/report_rows.rt` does.
use sk_asm::assemble;
use sk_insn::{Record, write_insns};
use sk_kernel::laws::line;
use sk_kernel::{Answer, Effect, Event, Images, Kernel, Mark, Need, Outcome};
use sk_names::Syscall::{
    ExitGroup, Fork, Getppid, Kill, Pause, Prctl, RtSigaction, Seccomp, Setuid, Wait4,
};
use sk_names::{Call, Syscall};
use sk_table::{ListStore, ProcStore, SlotStore};
use std::alloc::{AllocError, Global};
use std::process::Abort;
use std::test::Fail;

/// The verdict of filters that allow a call, and of none.
const ALLOW: u32 = 0x7fff_0000;

/// An event, and what the kernel answers to it.
type Row = (Event, Answer);

fn calls(pid: u32, call: Syscall, registers: [u64; 3]) -> Event {
    let [first, second, third] = registers;
    Event::Call {
        pid,
        ip: 0,
        call: Call {
            nr: call.number(),
            args: [first, second, third, 0, 0, 0],
        },
    }
}

fn allowed(outcome: Outcome) -> Answer {
    Answer::Call {
        verdict: ALLOW,
        outcome,
    }
}

fn gives(value: i64) -> Answer {
    allowed(Outcome::Returned(value))
}

fn refused(errno: u16) -> Answer {
    Answer::Call {
        verdict: 0x0005_0000 | u32::from(errno),
        outcome: Outcome::Returned(-i64::from(errno)),
    }
}

/// The filters. What they refuse stands behind each.
const FILTERS: &[&str] = &[
    "ret allow\n",
    "ret log\n",
    "ldabs 0\njeq 110 +0 +1\nret errno/1\nret allow\n", // getppid
    "ldabs 0\njeq 62 +0 +1\nret errno/1\nret allow\n", // kill
    "ldabs 0\njeq 39 +0 +1\nret trap/7\nret allow\n", // getpid
    "ldabs 0\njeq 124 +0 +1\nret kill_process\nret allow\n", // getsid
    "ldabs 0\njeq 118 +0 +1\nret kill_thread\nret allow\n", // getresuid
    "ret allow\ntax\n", // not valid
];

/// A kernel with the filters, and with two programs.
pub(crate) fn kernel<S: ProcStore>(alloc: Global, subreapers: bool) -> Result<Kernel<S>, Fail> {
    let mut filters = Vec::new(alloc);
    for text in FILTERS {
        filters.push(write_insns(alloc, &assemble(alloc, text.as_bytes())?)?)?;
    }
    let marks = [(0, false), (1000, true)].map(|(owner, setuid)| Mark { owner, setuid });
    Ok(Kernel::new(
        alloc,
        Images {
            filters,
            programs: marks.to_vec(alloc)?,
            subreapers,
        },
    )?)
}

// A child under its parent's filter is waited for, and is killed by a signal that its parent sends.
fn sandbox() -> [Row; 8] {
    let told = Outcome::Told { pid: 2, status: 9 };
    [
        (calls(1, Seccomp, [1, 0, 2]), gives(0)),
        (calls(1, Fork, [0; 3]), gives(2)),
        (calls(2, Getppid, [0; 3]), refused(1)),
        (calls(2, Pause, [0; 3]), allowed(Outcome::Waits)),
        (calls(1, Kill, [2, 9, 0]), gives(0)),
        (
            Event::Deliver { pid: 2 },
            Answer::Signal {
                signal: 9,
                effect: Effect::Ended(9),
            },
        ),
        (calls(1, Wait4, [u64::MAX, 0, 0]), allowed(told)),
        (
            calls(1, ExitGroup, [3, 0, 0]),
            allowed(Outcome::Ended(0x300)),
        ),
    ]
}

// Does these rows in one run, and compares each answer.
fn played<S: ProcStore, R: Abort + AllocGlobal>(rt: &R, rows: &[Row]) -> Result<Kernel<S>, Fail> {
    let mut kernel = kernel::<S>(rt.alloc(), false)?;
    let mut events = Vec::new(rt.alloc());
    for row in rows {
        events.push(row.0)?;
    }
    let mut answers = Vec::new(rt.alloc());
    assert_eq!(rt; kernel.run(&events, &mut answers), Ok(()));
    assert_eq!(rt; answers.len(), rows.len());
    for (answer, row) in answers.iter().zip(rows) {
        assert_eq!(rt; *answer, row.1);
    }
    Ok(kernel)
}

fn is_played<S: ProcStore, R: Abort + AllocGlobal>(rt: &R) -> Result<(), Fail> {
    let rows = sandbox();
    let half = played::<S, R>(rt, &rows[..5])?;
    assert_eq!(rt;
        (half.halted(), half.runnable(1), half.runnable(2)),
        (None, true, true)
    );
    assert_eq!(rt;
        (half.next_runnable(1), half.next_runnable(2)),
        (Some(2), Some(1))
    );
    assert_eq!(rt; (half.need(1), half.need(2)), (Need::Call, Need::Deliver));
    assert!(rt; half.next_runner(1).map(|runner| runner.need) == Some(Need::Deliver));
    assert!(rt; half.get(2).is_some() && half.get(3).is_none());
    let whole = played::<S, R>(rt, &rows)?;
    assert_eq!(rt;
        (whole.halted(), whole.next_runnable(1)),
        (Some(0x300), None)
    );
    Ok(())
}

#[test]
fn a_run_has_its_answers_over_each_store(rt: HostRuntime) -> Result<(), Fail> {
    is_played::<ListStore, HostRuntime>(&rt)?;
    is_played::<SlotStore, HostRuntime>(&rt)
}

#[test]
fn a_step_answers_as_a_run_does(rt: HostRuntime) -> Result<(), Fail> {
    let mut kernel = kernel::<SlotStore>(rt.alloc(), false)?;
    for (event, answer) in sandbox() {
        assert_eq!(rt; kernel.step(event), Ok(answer));
    }
    Ok(())
}

// Process 1 sets no_new_privs and forks, and its child takes another id.
#[test]
fn lineage_is_told_from_events_and_answers(rt: HostRuntime) -> Result<(), Fail> {
    let events = [
        calls(1, Prctl, [38, 1, 0]),
        calls(1, Fork, [0; 3]),
        calls(1, Setuid, [5, 0, 0]),
        calls(2, Setuid, [7, 0, 0]),
    ];
    let lineage = line(
        rt.alloc(),
        &events,
        &[gives(0), gives(2), gives(0), gives(0)],
        2,
    )?;
    assert_eq!(rt; lineage.root, 1);
    assert_eq!(rt;
        lineage.calls.as_slice(),
        [
            Record::native(Prctl.number(), 0, [38, 1, 0, 0, 0, 0]),
            Record::native(Setuid.number(), 0, [7, 0, 0, 0, 0, 0]),
        ]
        .as_slice()
    );
    Ok(())
}

// A child has as many filters as it can have, and a child of it has them too: that their end takes no stack is seen here alone.
#[test]
fn long_chains_are_shared_and_given_back(rt: HostRuntime) -> Result<(), Fail> {
    let mut rows = Vec::new(rt.alloc());
    rows.push((calls(1, Fork, [0; 3]), gives(2)))?;
    for _ in 0..6554 {
        rows.push((calls(2, Seccomp, [1, 0, 0]), gives(0)))?;
    }
    add_ends(&mut rows)?;
    played::<ListStore, HostRuntime>(&rt, &rows)?;
    played::<SlotStore, HostRuntime>(&rt, &rows)?;
    Ok(())
}

fn add_ends(rows: &mut Vec<Row>) -> Result<(), AllocError> {
    rows.push((calls(2, Fork, [0; 3]), gives(3)))?;
    rows.push((calls(3, Seccomp, [1, 0, 0]), gives(-12)))?;
    rows.push((calls(2, ExitGroup, [0; 3]), allowed(Outcome::Ended(0))))?;
    rows.push((
        calls(3, ExitGroup, [1, 0, 0]),
        allowed(Outcome::Ended(0x100)),
    ))?;
    rows.push((
        calls(1, Wait4, [u64::MAX, 0, 0]),
        allowed(Outcome::Told { pid: 2, status: 0 }),
    ))?;
    Ok(())
}
