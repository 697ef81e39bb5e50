//! getpgid(2) and getsid(2), and how a pid leads to a group and a session.
ghost use Rattle.std.specs.Prelude.{◌≡◌, IsTrue};
ghost use Rattle.std.specs.Option.{is_some};
ghost use Rattle.sk_world.specs.World.{at};
ghost use Rattle.sk_world.specs.Rules.{IsWorld};
ghost use Rattle.sk_machine.specs.Sessions.{pid_named, group_of, session_of, group_asked, session_asked};

use sk_world::{Errno, ProcStore};

/// The process group of a process: getpgid(2). The pid 0 stands for the caller.
pub fn getpgid<S: ProcStore>(store: &S, caller: u32, pid: i32) -> Result<u32, Errno>
    requires rules { IsWorld (S.contents store.now) }
    requires there { IsTrue (is_some (at (S.contents store.now) caller)) }
    ensures { result ≡ group_asked (S.contents store.now) caller pid }
{
    match store.get(pid_named(caller, pid)) {
        Some(process) => Ok(process.links.group),
        None => Err(Errno::Esrch),
    }
}

/// The session of a process: getsid(2). The pid 0 stands for the caller.
pub fn getsid<S: ProcStore>(store: &S, caller: u32, pid: i32) -> Result<u32, Errno>
    requires rules { IsWorld (S.contents store.now) }
    requires there { IsTrue (is_some (at (S.contents store.now) caller)) }
    ensures { result ≡ session_asked (S.contents store.now) caller pid }
{
    match store.get(pid_named(caller, pid)) {
        Some(process) => Ok(process.links.session),
        None => Err(Errno::Esrch),
    }
}

/// The pid that an argument names, where 0 stands for this one, and a negative number for nobody's, 0.
pub(crate) fn pid_named(this: u32, pid: i32) -> u32
    ensures { result ≡ pid_named this pid }
{
    match u32::try_from(pid) {
        Ok(0) => this,
        Ok(named) => named,
        Err(_) => 0,
    }
}

/// The session of a process, 0 where it is not there.
pub fn session_of<S: ProcStore>(store: &S, pid: u32) -> u32
    ensures { result ≡ session_of (at (S.contents store.now) pid) }
{
    match store.get(pid) {
        Some(process) => process.links.session,
        None => 0,
    }
}

/// The process group of a process, 0 where it is not there.
pub fn group_of<S: ProcStore>(store: &S, pid: u32) -> u32
    ensures { result ≡ group_of (at (S.contents store.now) pid) }
{
    match store.get(pid) {
        Some(process) => process.links.group,
        None => 0,
    }
}
