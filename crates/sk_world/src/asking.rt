//! What is asked about a process: by its pid, and whether a wait4(2) asks for it.
ghost use Rattle.std.specs.Prelude.{◌≡◌};
ghost use Rattle.sk_world.specs.World.{at, is_alive, is_stopped, is_zombie, parent_of};
ghost use Rattle.sk_world.specs.Waits.{is_asked_for};

use crate::process::{Life, Proc};
use crate::request::Who;
use crate::store::ProcStore;

/// The parent of a process, 0 where the process is not there: getppid(2).
pub fn parent_of<S: ProcStore>(store: &S, pid: u32) -> u32
    ensures { result ≡ parent_of (at (S.contents store.now) pid) }
{
    match store.get(pid) {
        Some(process) => process.links.parent,
        None => 0,
    }
}

/// Whether the process is there, and has not ended.
pub fn is_alive<S: ProcStore>(store: &S, pid: u32) -> bool
    ensures { result ≡ is_alive (at (S.contents store.now) pid) }
{
    match store.get(pid) {
        Some(process) => !matches!(process.body.life, Life::Zombie(_)),
        None => false,
    }
}

/// Whether the process is there, and is stopped by a signal.
pub fn is_stopped<S: ProcStore>(store: &S, pid: u32) -> bool
    ensures { result ≡ is_stopped (at (S.contents store.now) pid) }
{
    match store.get(pid) {
        Some(process) => matches!(process.body.life, Life::Stopped),
        None => false,
    }
}

/// Whether the process is there, and has ended.
pub fn is_zombie<S: ProcStore>(store: &S, pid: u32) -> bool
    ensures { result ≡ is_zombie (at (S.contents store.now) pid) }
{
    match store.get(pid) {
        Some(process) => matches!(process.body.life, Life::Zombie(_)),
        None => false,
    }
}

/// Whether a process is one of those that a wait4(2) asks for.
#[inline(always)]
pub fn is_asked_for(who: Who, pid: u32, process: &Proc) -> bool
    ensures { result ≡ is_asked_for who pid process.now }
{
    match who {
        Who::Child(child) => pid == child,
        Who::Any => true,
        Who::Group(group) => process.links.group == group,
    }
}
