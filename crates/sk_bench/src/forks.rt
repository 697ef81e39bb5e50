//! Forks of a process that has as many filters as it can have, in a kernel over each store, and a run that may stop once and goes
//! on. `tools/refuse_memory.py` has the forks made with all memory refused from the first line of output on: they take none.
use crate::fault::Fault;
use sk_kernel::{Answer, Event, Images, Kernel, Outcome, Stopped};
use sk_names::{Call, Syscall};
use sk_table::{INIT, ListStore, SlotStore};
use sk_text::Words;
use sk_world::ProcStore;
use std::alloc::{AllocError, Global};

// The bytes of `ret allow`.
const ALLOW: [u8; 8] = [0x06, 0, 0, 0, 0, 0, 0xff, 0x7f];

// The most filters of one instruction that a process can have.
const FILTERS: usize = 6554;

// As many children as there is room for beside process 1.
const FORKS: usize = 1023;

/// Does what the word names: forks over a store, or a run that goes on where a refusal of memory has stopped it.
pub fn tell<R: Print + AllocGlobal>(rt: &R, mut words: Words<'_>) -> Result<(), Fault> {
    match words.next() {
        Some(b"list") => fork_twice::<ListStore, R>(rt),
        Some(b"slots") => fork_twice::<SlotStore, R>(rt),
        Some(b"stop") => go_on_after_a_stop(rt),
        _ => Err(Fault::NotUnderstood),
    }
}

// Fills the store, ends all children and waits for them, and fills it with others.
fn fork_twice<S: ProcStore, R: Print + AllocGlobal>(rt: &R) -> Result<(), Fault> {
    let mut kernel = kernel_of::<S>(rt.alloc())?;
    let attaches = repeated(rt.alloc(), call(INIT, Syscall::Seccomp, 1), FILTERS)?;
    kernel.run(&attaches, &mut Vec::new(rt.alloc()))?;
    let forks = repeated(rt.alloc(), call(INIT, Syscall::Fork, 0), FORKS)?;
    let ends = ends(rt.alloc())?;
    let mut answers = Vec::with_capacity(rt.alloc(), ends.len())?;
    // There is room for all answers.
    println!(rt; "{FILTERS} filters")?;
    fork_all(rt, &mut kernel, &forks, &mut answers)?;
    answers.clear();
    kernel.run(&ends, &mut answers)?;
    fork_all(rt, &mut kernel, &forks, &mut answers)?;
    // Whether one byte of memory can be had.
    let memory = Vec::<u8>::with_capacity(rt.alloc(), 1).is_ok();
    println!(rt; "memory is {}", if memory { "there" } else { "refused" })?;
    Ok(())
}

// Tells the sum of the children's pids, and how many children have all filters.
fn fork_all<S: ProcStore, R: Print>(
    rt: &R,
    kernel: &mut Kernel<S>,
    forks: &[Event],
    answers: &mut Vec<Answer>,
) -> Result<(), Fault> {
    answers.clear();
    kernel.run(forks, answers)?;
    let mut sum = 0u32;
    let mut children = 0u32;
    for answer in answers.iter() {
        let pid = returned_by(answer);
        let has_filters = kernel
            .get(pid)
            .is_some_and(|child| child.body.chain.len() == FILTERS);
        sum = sum.saturating_add(pid);
        children = children.saturating_add(u32::from(has_filters));
    }
    println!(rt; "{FORKS} forks, pids {sum} in sum, {children} with the filters")?;
    Ok(())
}

// What a call returned that is no error.
fn returned_by(answer: &Answer) -> u32 {
    match *answer {
        Answer::Call {
            outcome: Outcome::Returned(value),
            ..
        } => u32::try_from(value).unwrap_or(0),
        _ => 0,
    }
}

// Each child ends, and process 1 waits for it.
fn ends(alloc: Global) -> Result<Vec<Event>, AllocError> {
    let mut events = Vec::new(alloc);
    for child in 2..FORKS as u32 + 2 {
        events.push(call(child, Syscall::Exit, 0))?;
        events.push(call(INIT, Syscall::Wait4, u64::from(child)))?;
    }
    Ok(events)
}

// Lets the kernel go on where a refusal of memory stops it once, and compares the answers.
fn go_on_after_a_stop<R: Print + AllocGlobal>(rt: &R) -> Result<(), Fault> {
    let rows = rows();
    let mut events = Vec::new(rt.alloc());
    for (event, _) in rows {
        events.push(event)?;
    }
    let answers = answers_in_two_runs(rt, &events)?;
    for (answer, (_, value)) in answers.iter().zip(rows) {
        let expected = Answer::Call {
            verdict: 0x7fff_0000,
            outcome: Outcome::Returned(value),
        };
        if *answer != expected {
            return Err(Fault::Otherwise);
        }
    }
    println!(rt; "{} answers", answers.len())?;
    Ok(())
}

fn answers_in_two_runs<R: Print + AllocGlobal>(
    rt: &R,
    events: &[Event],
) -> Result<Vec<Answer>, Fault> {
    let mut kernel = kernel_of::<ListStore>(rt.alloc())?;
    let mut answers = Vec::new(rt.alloc());
    if let Err(Stopped { done }) = kernel.run(events, &mut answers) {
        println!(rt; "stopped after {done}")?;
        kernel.run(&events[done.min(events.len())..], &mut answers)?;
    }
    Ok(answers)
}

// Process 1 and its child attach filters and fork. Behind each call stands what it returns.
fn rows() -> [(Event, i64); 10] {
    [
        (call(INIT, Syscall::Seccomp, 1), 0),
        (call(INIT, Syscall::Seccomp, 1), 0),
        (call(INIT, Syscall::Fork, 0), 2),
        (call(2, Syscall::Seccomp, 1), 0),
        (call(2, Syscall::Getpid, 0), 2),
        (call(2, Syscall::Fork, 0), 3),
        (call(3, Syscall::Getppid, 0), 2),
        (call(3, Syscall::Seccomp, 1), 0),
        (call(INIT, Syscall::Seccomp, 1), 0),
        (call(INIT, Syscall::Getpid, 0), 1),
    ]
}

fn kernel_of<S: ProcStore>(alloc: Global) -> Result<Kernel<S>, Fault> {
    let mut filters = Vec::new(alloc);
    filters.push(ALLOW.to_vec(alloc)?)?;
    let declared = Images {
        filters,
        programs: Vec::new(alloc),
        subreapers: false,
    };
    Ok(Kernel::new(alloc, declared)?)
}

fn call(pid: u32, syscall: Syscall, register: u64) -> Event {
    Event::Call {
        pid,
        ip: 0,
        call: Call {
            nr: syscall.number(),
            args: [register, 0, 0, 0, 0, 0],
        },
    }
}

fn repeated(alloc: Global, event: Event, times: usize) -> Result<Vec<Event>, AllocError> {
    let mut events = Vec::new(alloc);
    for _ in 0..times {
        events.push(event)?;
    }
    Ok(events)
}
