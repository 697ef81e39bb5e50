//! Random events, told to two kernels, one over each store: both give the same answers, and come to the same processes. That
//! is a theorem of each; what is seen here is that the compiled code of both stores does so.
use crate::kernel::kernel;
use sk_filter::Chain;
use sk_kernel::{Answer, Effect, Event, Kernel, Need, Outcome};
use sk_names::Syscall::{
    Execve, Exit, ExitGroup, Fork, Geteuid, Getpgid, Getpgrp, Getpid, Getppid, Getresuid, Getsid,
    Getuid, Kill, Pause, Prctl, RtSigaction, RtSigpending, RtSigprocmask, RtSigreturn, SchedYield,
    Seccomp, Setpgid, Setresuid, Setsid, Setuid, Wait4,
};
use sk_names::{Call, Syscall};
use sk_table::{Body, INIT, ListStore, SlotStore};
use sk_world::SigState;
use std::process::Abort;
use std::test::Fail;

/// How many pairs of kernels there are, and how many events each is told.
const PAIRS: u32 = 24;

const EVENTS: u32 = 250;

/// Random numbers: the xorshift generator of Marsaglia (2003), with the shifts 13, 7 and 17. The state is never 0.
#[derive(Clone, Copy)]
struct Random {
    state: u64,
}

impl Random {
    fn bits(&mut self) -> u64 {
        self.state ^= self.state << 13;
        self.state ^= self.state >> 7;
        self.state ^= self.state << 17;
        self.state
    }

    // Yes once in so many times.
    fn one_in(&mut self, times: u64) -> bool {
        self.bits() % times.max(1) == 0
    }

    // One of these, or the other thing where there are none.
    fn pick<T: Copy>(&mut self, items: &[T], other: T) -> T {
        let place = self.bits() % (items.len() as u64).max(1);
        items.get(place as usize).copied().unwrap_or(other)
    }

    // A pid that is given early.
    fn pid(&mut self) -> u32 {
        (self.bits() % 16) as u32
    }
}

/// The places of filters, and of none.
const IMAGES: &[i64] = &[1, 2, 3, 4, 5, 6, 7, 8];

const IDS: &[i64] = &[0, 1000, 1001, 0xffff_ffff];

const NEEDS: &[Need] = &[Need::Deliver, Need::Resume, Need::Call];

/// Calls without registers.
const PLAIN: &[Syscall] = &[
    Fork, Fork, Fork, Fork, Fork, Fork, Getpid, Getppid, Getuid, Geteuid, Getresuid, Getresuid,
    Getpgrp, SchedYield, Pause, Setsid, Exit, ExitGroup,
];

/// Calls, and values of their first three registers.
const CALLS: &[(Syscall, [&[i64]; 3])] = &[
    (Wait4, [&[-1], &[0], &[0, 0, 1, 2, 3, 8, 11, 4]]),
    (Wait4, [&[-1, 0], &[0], &[0]]),
    (Kill, [&[-1, 0], &[0, 2, 9, 15], &[0]]),
    (Kill, [&[0], &[10, 10, 12, 18, 19, 20, 32], &[0]]),
    (RtSigaction, [&[10, 10, 12, 17], &[1, 2, 3], &[0, -1]]),
    (RtSigprocmask, [&[0, 1, 2, 3], &[0, 0x200, -1], &[0]]),
    (RtSigreturn, [&[0]; 3]),
    (RtSigpending, [&[0]; 3]),
    (Seccomp, [&[1], &[0], IMAGES]),
    (Seccomp, [&[2, 0], &[0], &[0x7ff0_0000, 0x0006_0000]]),
    (Prctl, [&[22], &[2, 2, 1], IMAGES]),
    (Prctl, [&[38, 36, 37, 39, 21, 50], &[1, 0], &[0, 0, 7]]),
    (Execve, [&[0, 1, 2], &[0], &[0]]),
    (Setuid, [IDS, &[0], &[0]]),
    (Setresuid, [IDS, IDS, IDS]),
    (Setpgid, [&[0], &[0, 0, 0, 1, 2, -5], &[0]]),
    (Getpgid, [&[0]; 3]),
    (Getsid, [&[0]; 3]),
];

fn call(random: &mut Random) -> Call {
    let plain = (random.pick(PLAIN, Fork), [&[0_i64][..]; 3]);
    let (syscall, [first, second, third]) = if random.one_in(3) {
        plain
    } else {
        random.pick(CALLS, plain)
    };
    let names_process = matches!(syscall, Kill | Wait4 | Setpgid | Getpgid | Getsid);
    let first = if names_process && random.one_in(2) {
        i64::from(random.pid())
    } else {
        random.pick(first, 0)
    };
    let (second, third) = (random.pick(second, 0), random.pick(third, 0));
    let registers = [first, second, third, 0, 0, 0];
    Call {
        nr: syscall.number(),
        args: registers.map(|register| register.cast_unsigned()),
    }
}

/// What is to come of the events.
#[derive(Clone, Copy, PartialEq, Eq, Debug)]
enum Kind {
    Forked,
    Told,
    GroupSet,
    EndedByFilter,
    EndedBySignal,
    Handler,
}

/// How often each comes at least.
const KINDS: &[(Kind, usize)] = &[
    (Kind::Forked, 200),
    (Kind::Told, 25),
    (Kind::GroupSet, 15),
    (Kind::EndedByFilter, 8),
    (Kind::EndedBySignal, 70),
    (Kind::Handler, 6),
];

fn kind_of(event: &Event, answer: &Answer) -> Option<Kind> {
    match *answer {
        Answer::Call { verdict, outcome } => kind_of_call(event, verdict, outcome),
        Answer::Resumed(Outcome::Told { .. }) => Some(Kind::Told),
        Answer::Signal { effect, .. } => match effect {
            Effect::Ended(_) => Some(Kind::EndedBySignal),
            Effect::Handler { .. } => Some(Kind::Handler),
            _ => None,
        },
        _ => None,
    }
}

fn kind_of_call(event: &Event, verdict: u32, outcome: Outcome) -> Option<Kind> {
    let Event::Call { call, .. } = *event else {
        return None;
    };
    match (verdict, Syscall::of(call.nr), outcome) {
        (0 | 0x8000_0000, _, _) => Some(Kind::EndedByFilter),
        (_, _, Outcome::Told { .. }) => Some(Kind::Told),
        (_, Some(Fork), Outcome::Returned(1..)) => Some(Kind::Forked),
        (_, Some(Setpgid), Outcome::Returned(0)) => Some(Kind::GroupSet),
        _ => None,
    }
}

/// A kernel over each store.
#[derive(Drop)]
struct Pair {
    list: Kernel<ListStore>,
    slots: Kernel<SlotStore>,
}

impl Pair {
    // The event that a process needs which can run, or any event of any process.
    fn event(&self, random: &mut Random) -> Event {
        let any = random.pid();
        let (pid, need) = match self.slots.next_runnable(any) {
            Some(pid) if !random.one_in(7) => (pid, self.slots.need(pid)),
            _ => (any, random.pick(NEEDS, Need::Call)),
        };
        match (need, call(random)) {
            (Need::Deliver, _) => Event::Deliver { pid },
            (Need::Resume, _) => Event::Resume { pid },
            (Need::Call, _) if pid != INIT && random.one_in(60) => Event::Fault { pid },
            // Process 1 does not end or pause (60, 231, 34), and the system goes on.
            (_, call) if pid != INIT || !matches!(call.nr, 34 | 60 | 231) => {
                Event::Call { pid, ip: 0, call }
            }
            _ => Event::Deliver { pid },
        }
    }

    // Tells both kernels an event, and compares what they answer.
    fn tell(&mut self, rt: &impl Abort, event: Event) -> Result<Option<Kind>, Fail> {
        let listed = self.list.step(event)?;
        let slotted = self.slots.step(event)?;
        assert!(rt; listed == slotted, "{listed:?} and {slotted:?}");
        Ok(kind_of(&event, &slotted))
    }

    // Whether both keep the same process of a pid, and say the same of its turn.
    fn agree_on(&self, pid: u32) -> bool {
        let are_alike = match (self.list.get(pid), self.slots.get(pid)) {
            (Some(listed), Some(slotted)) => {
                listed.links == slotted.links && bodies_are_alike(&listed.body, &slotted.body)
            }
            (None, None) => true,
            _ => false,
        };
        are_alike
            && self.list.need(pid) == self.slots.need(pid)
            && self.list.next_runnable(pid) == self.slots.next_runnable(pid)
    }
}

fn bodies_are_alike(body: &Body, other: &Body) -> bool {
    (body.life, body.creds, body.waiting, body.note)
        == (other.life, other.creds, other.waiting, other.note)
        && (body.executed, body.subreaper) == (other.executed, other.subreaper)
        && chains_are_alike(&body.chain, &other.chain)
        && signals_are_alike(&body.signals, &other.signals)
}

fn chains_are_alike(chain: &Chain, other: &Chain) -> bool {
    let mut programs = chain.programs().zip(other.programs());
    chain.len() == other.len()
        && chain.table() == other.table()
        && programs.all(|(program, twin)| program.insns() == twin.insns())
}

fn signals_are_alike(signals: &SigState, other: &SigState) -> bool {
    for signal in 1..32 {
        if signals.action(signal) != other.action(signal) {
            return false;
        }
    }
    (signals.mask(), signals.pending()) == (other.mask(), other.pending())
}

#[test]
fn both_stores_come_to_the_same(rt: HostRuntime) -> Result<(), Fail> {
    let mut random = Random { state: 20_261_123 };
    let mut came = Vec::new(rt.alloc());
    for number in 0..PAIRS {
        let mut pair = Pair {
            list: kernel(rt.alloc(), number % 2 == 1)?,
            slots: kernel(rt.alloc(), number % 2 == 1)?,
        };
        tell_all(&rt, &mut pair, &mut random, &mut came)?;
    }
    for (kind, least) in KINDS {
        let times = came.iter().filter(|it| *it == kind).count();
        assert!(rt; times >= *least, "{kind:?} came {times} times");
    }
    Ok(())
}

fn tell_all(
    rt: &impl Abort,
    pair: &mut Pair,
    random: &mut Random,
    came: &mut Vec<Kind>,
) -> Result<(), Fail> {
    for _ in 0..EVENTS {
        let event = pair.event(random);
        if let Some(kind) = pair.tell(rt, event)? {
            came.push(kind)?;
        }
    }
    // No pid is larger than the number of events and 1.
    for pid in 0..EVENTS + 2 {
        assert!(rt; pair.agree_on(pid), "process {pid}");
    }
    Ok(())
}
