//! The way up from a process to the one that gets its orphans.
ghost use Rattle.std.specs.Prelude.{◌≡◌, ◌==◌, ◌&&◌, not};
ghost use Rattle.sk_world.specs.Subreapers.{new_parent};

use crate::asking::parent_of;
use crate::process::{INIT, PROCESSES, Proc};
use crate::store::ProcStore;

/// Who the children of a process go to when it ends: its nearest ancestor that is a subreaper, and process 1 where none
/// is one. Its own mark does not count. The way up is `PROCESSES` long at most, and so comes to an end even if a process
/// were its own ancestor.
pub fn reaper<S: ProcStore>(store: &S, pid: u32) -> u32
    ensures reaper { result ≡ new_parent (S.contents store.now) pid }
{
    let mut ancestor = parent_of(store, pid);
    for _asked in 0..PROCESSES {
        let Some(process) = store.get(ancestor) else {
            return INIT;
        };
        if takes_children(process, pid, ancestor) {
            return ancestor;
        }
        ancestor = process.links.parent;
    }
    INIT
}

fn takes_children(process: &Proc, dying: u32, pid: u32) -> bool
    ensures { result ≡ (process.now.body.subreaper && not (pid == dying)) }
{
    process.body.subreaper && pid != dying
}
