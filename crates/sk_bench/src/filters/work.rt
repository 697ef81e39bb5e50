//! The work itself. In each round the calls come from another address, so that no round is another's.
ghost use Rattle.std.specs.Prelude.{◌≡◌, ◌++◌, List, [], ◌∷◌, length, vec_len, IfOk};
ghost use Rattle.sk_insn.specs.declared.insn.Insn.{Insn};

use super::task::{Task, Work};
use super::total::Total;
use crate::fault::Fault;
use crate::programs::{attached, program_of};
use sk_filter::{Chain, Checked, run};
use sk_insn::{Insn, Record, read_insns};
use std::alloc::Global;

/// What all rounds of a task come to.
pub fn total_of(alloc: Global, task: Task) -> Result<Total, Fault> {
    let Task {
        work,
        rounds,
        mut calls,
        images,
    } = task;
    match work {
        Work::Read => images_read(alloc, &images, rounds),
        Work::Check => images_checked(alloc, &images, rounds),
        Work::Run => {
            let programs = programs_of(alloc, &images)?;
            Ok(programs_run(&programs, &mut calls, rounds))
        }
        Work::Verdict => {
            let chain = chain_of(alloc, &images)?;
            Ok(verdicts_given(&chain, &mut calls, rounds))
        }
        Work::Attach => chains_made(alloc, &images, rounds),
        Work::Always => {
            let chain = chain_of(alloc, &images)?;
            Ok(numbers_looked_up(&chain, &calls, rounds))
        }
    }
}

fn images_read(alloc: Global, images: &[Vec<u8>], rounds: u32) -> Result<Total, Fault> {
    let mut total = Total::new();
    for _ in 0..rounds {
        for image in images {
            let insns = read_insns(alloc, image)?;
            total.add(last_constant(&insns), insns.len() as u64);
        }
    }
    Ok(total)
}

fn images_checked(alloc: Global, images: &[Vec<u8>], rounds: u32) -> Result<Total, Fault> {
    let mut total = Total::new();
    for _ in 0..rounds {
        for image in images {
            let program = program_of(alloc, image)?;
            total.add(last_constant(program.insns()), program.insns().len() as u64);
        }
    }
    Ok(total)
}

fn last_constant(insns: &[Insn]) -> u32
    ensures none { insns.now ≡ [] → result ≡ 0 }
    ensures last { (front : List Insn) (last : Insn) → insns.now ≡ front ++ last ∷ [] → result ≡ last.k }
{
    match insns.last() {
        Some(insn) => insn.k,
        None => 0,
    }
}

fn programs_run(programs: &[Checked], calls: &mut [Record], rounds: u32) -> Total {
    let mut total = Total::new();
    for round in 0..rounds {
        move_to(calls, round);
        for call in &*calls {
            for program in programs {
                let ran = run(program, call);
                total.add(ran.value, u64::from(ran.steps));
            }
        }
    }
    total
}

fn verdicts_given(chain: &Chain, calls: &mut [Record], rounds: u32) -> Total {
    let mut total = Total::new();
    for round in 0..rounds {
        move_to(calls, round);
        for call in &*calls {
            total.add(chain.verdict(call), 1);
        }
    }
    total
}

fn chains_made(alloc: Global, images: &[Vec<u8>], rounds: u32) -> Result<Total, Fault> {
    let mut total = Total::new();
    for _ in 0..rounds {
        let chain = chain_of(alloc, images)?;
        total.add(folded(chain.table()), images.len() as u64);
    }
    Ok(total)
}

// A sum over the low halves of a table's words.
fn folded(table: &[u64; 8]) -> u32 {
    let mut sum = 0u32;
    for word in table {
        sum = sum
            .wrapping_mul(31)
            .wrapping_add((*word % 0x1_0000_0000) as u32);
    }
    sum
}

fn numbers_looked_up(chain: &Chain, calls: &[Record], rounds: u32) -> Total {
    let mut total = Total::new();
    for round in 0..rounds {
        for call in calls {
            let nr = call.nr.wrapping_add(round) % 512;
            total.add(u32::from(chain.always(nr)), 1);
        }
    }
    total
}

// Has all calls come from this address.
fn move_to(calls: &mut [Record], address: u32) {
    for call in calls {
        call.ip = u64::from(address);
    }
}

fn programs_of(alloc: Global, images: &[Vec<u8>]) -> Result<Vec<Checked>, Fault>
    ensures count { IfOk result (λ programs. vec_len programs ≡ length images.now) }
{
    let mut programs = Vec::new(alloc);
    for image in images {
        programs.push(program_of(alloc, image)?)?;
    }
    Ok(programs)
}

fn chain_of(alloc: Global, images: &[Vec<u8>]) -> Result<Chain, Fault>
    ensures count { IfOk result (λ chain. length chain ≡ length images.now) }
{
    let mut chain = Chain::empty(alloc);
    for image in images {
        chain = attached(chain, program_of(alloc, image)?)?;
    }
    Ok(chain)
}
