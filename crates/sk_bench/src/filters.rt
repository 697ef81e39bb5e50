//! Filters: their images, the checker, the interpreter and chains.

mod task;
mod total;
mod work;

use crate::fault::Fault;
use task::Task;
use total::Total;

/// Tells what the task of a text comes to.
pub fn tell<R: Print + AllocGlobal>(rt: &R, text: &[u8]) -> Result<(), Fault> {
    let alloc = rt.alloc();
    let task = Task::of(alloc, text)?;
    let Total { sum, count } = work::total_of(alloc, task)?;
    println!(rt; "sum {sum} count {count}")?;
    Ok(())
}
