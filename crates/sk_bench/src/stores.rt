//! The two stores of processes: what is done, over which store, among how many processes, and how often. What all rounds come to
//! is a sum of all that came out.
ghost use Rattle.std.specs.Prelude.{IfOk};
ghost use Rattle.sk_world.specs.Rules.{IsWorld};

use crate::fault::Fault;
use crate::numbers::number_of;
use sk_table::{ListStore, SlotStore, laws};
use sk_text::Words;
use sk_world::{INIT, ProcStore, end, fork, is_alive, is_zombie, reap};
use std::alloc::Global;

/// Tells what the task of these words comes to.
pub fn tell<R: Print + AllocGlobal>(rt: &R, words: Words<'_>) -> Result<(), Fault> {
    let sum = sum_of(rt.alloc(), words)?;
    println!(rt; "sum {sum}")?;
    Ok(())
}

fn sum_of(alloc: Global, mut words: Words<'_>) -> Result<u32, Fault> {
    laws::rules_are_kept();
    match words.next() {
        Some(b"list") => sum_over(&mut ListStore::new(alloc)?, words),
        Some(b"slots") => sum_over(&mut SlotStore::new(alloc)?, words),
        _ => Err(Fault::NotUnderstood),
    }
}

fn sum_over<S: ProcStore>(store: &mut S, mut words: Words<'_>) -> Result<u32, Fault>
    requires { IsWorld (S.contents store.old) }
{
    let work = words.next();
    let processes = number_of(words.next())?;
    let rounds = number_of(words.next())?;
    filled(store, processes)?;
    match work {
        Some(b"fork") => forked(store, rounds),
        Some(b"next-child") => Ok(walked(store, rounds)),
        _ => Err(Fault::NotUnderstood),
    }
}

// Forks process 1 until there are so many processes.
fn filled<S: ProcStore>(store: &mut S, processes: u32) -> Result<(), Fault>
    requires { IsWorld (S.contents store.old) }
    ensures { IfOk result (λ _. IsWorld (S.contents store.new)) }
{
    for _forked in 1..processes {
        child_of_init(store)?;
    }
    Ok(())
}

// Forks process 1 and takes the child out, and answers a sum of the pids.
fn forked<S: ProcStore>(store: &mut S, rounds: u32) -> Result<u32, Fault>
    requires { IsWorld (S.contents store.old) }
{
    let mut sum = 0u32;
    for _round in 0..rounds {
        let pid = child_of_init(store)?;
        take_out(store, pid)?;
        sum = sum.wrapping_add(pid);
    }
    Ok(sum)
}

// Asks for the children of process 1 in turn, and answers a sum of their pids.
fn walked<S: ProcStore>(store: &S, rounds: u32) -> u32 {
    let mut sum = 0u32;
    let mut after = 0;
    for _round in 0..rounds {
        match store.next_child(INIT, after) {
            Some(pid) => {
                sum = sum.wrapping_add(pid);
                after = pid;
            }
            None => after = 0,
        }
    }
    sum
}

// Forks process 1, and answers the child's pid.
fn child_of_init<S: ProcStore>(store: &mut S) -> Result<u32, Fault>
    requires { IsWorld (S.contents store.old) }
    ensures { IfOk result (λ _. IsWorld (S.contents store.new)) }
{
    if !is_alive(store, INIT) {
        return Err(Fault::Otherwise);
    }
    match fork(store, INIT)? {
        Ok(pid) => Ok(pid),
        Err(_) => Err(Fault::Otherwise),
    }
}

// Ends a child that lives, and takes it out.
fn take_out<S: ProcStore>(store: &mut S, pid: u32) -> Result<(), Fault>
    requires { IsWorld (S.contents store.old) }
    ensures { IfOk result (λ _. IsWorld (S.contents store.new)) }
{
    if pid == INIT || !is_alive(store, pid) {
        return Err(Fault::Otherwise);
    }
    end(store, pid, 0);
    if !is_zombie(store, pid) {
        return Err(Fault::Otherwise);
    }
    reap(store, pid);
    Ok(())
}
