//! Who is blocked, and which parent hears of the status change of a process.
ghost use Rattle.std.specs.Prelude.{◌≡◌, ℕ, None, Some, IsTrue};
ghost use Rattle.std.specs.Option.{is_some};
ghost use Rattle.sk_world.specs.World.{at};
ghost use Rattle.sk_world.specs.Waits.{status_of_note, status_of_body};
ghost use Rattle.sk_kernel.specs.views.Blocked.{has_status_change, has_change_for, BlockedAs, KeepsWaiting, IsStillAsking};

use crate::reasons::signal_for;
use bitflags::Flags;
use sk_world::{Body, Life, Note, Proc, ProcStore, Request, WaitOptions, Waiting, is_asked_for};

/// The parent that a status change of the process is reported to, if there is one. The pid 0, which is nobody's, stands for no process.
pub(crate) fn waiter<S: ProcStore>(store: &S, pid: u32) -> Option<u32>
    requires nobody { at (S.contents store.now) 0 ≡ None }
    ensures { (q : ℕ) → IsTrue (has_change_for q (at (S.contents store.now) pid)) → result ≡ Some q }
{
    if pid == 0 {
        return None;
    }
    match store.get(pid) {
        Some(process) => notified_parent(process),
        None => None,
    }
}

/// The parent that a status change of this process is reported to, if there is one.
pub(crate) fn notified_parent(process: &Proc) -> Option<u32>
    ensures { (q : ℕ) → IsTrue (has_change_for q (Some process.now)) → result ≡ Some q }
{
    has_status_change(&process.body).then_some(process.links.parent)
}

/// Whether this process cannot run, and will not before it changes or a child of it does.
pub(crate) fn is_blocked<S: ProcStore>(store: &S, pid: u32, process: &Proc) -> bool
    requires nobody { at (S.contents store.now) 0 ≡ None }
    ensures { IsTrue result → BlockedAs (S.contents store.now) pid (Some process.now) }
{
    let is_due = signal_for(&process.body).is_some();
    match process.body.life {
        Life::Zombie(_) => true,
        Life::Stopped => !is_due,
        Life::Running => !is_due && keeps_waiting(store, pid, process.body.waiting),
    }
}

// Whether a process that waits for this goes on waiting until a child changes.
fn keeps_waiting<S: ProcStore>(store: &S, pid: u32, waiting: Waiting) -> bool
    requires nobody { at (S.contents store.now) 0 ≡ None }
    ensures { IsTrue result → KeepsWaiting (S.contents store.now) pid waiting }
{
    match waiting {
        Waiting::Nothing => false,
        Waiting::Pause => true,
        Waiting::Asks(request) => is_still_asking(store, pid, request),
    }
}

// Whether a child matches the request, and none that does has a status to report.
fn is_still_asking<S: ProcStore>(store: &S, pid: u32, request: Request) -> bool
    requires nobody { at (S.contents store.now) 0 ≡ None }
    ensures { IsTrue result → IsStillAsking (S.contents store.now) pid request }
{
    let mut is_matched = false;
    let mut after = 0;
    while let Some(child) = store.next_child(pid, after) {
        let Some(process) = store.get(child) else {
            return false;
        };
        if is_asked_for(request.who, child, process) {
            if has_status(request.options, &process.body) {
                return false;
            }
            is_matched = true;
        }
        after = child;
    }
    is_matched
}

// Whether a wait4(2) with these options reports a process with this body.
fn has_status(options: WaitOptions, body: &Body) -> bool
    ensures { result ≡ is_some (status_of_body options body.now.note body.now.life) }
{
    match body.life {
        Life::Zombie(_) => true,
        Life::Stopped => has_status_of_note(options, body.note),
        Life::Running => has_status_of_note(options, body.note),
    }
}

fn has_status_of_note(options: WaitOptions, note: Note) -> bool
    ensures { result ≡ is_some (status_of_note options note) }
{
    match note {
        Note::Nothing => false,
        Note::Stopped(_) => options.contains(WaitOptions::WUNTRACED),
        Note::Continued => options.contains(WaitOptions::WCONTINUED),
    }
}

// Whether a status change of the process is still to be reported: it has ended, or was stopped or continued.
fn has_status_change(body: &Body) -> bool
    ensures { result ≡ has_status_change body.now }
{
    let is_unreported = match body.note {
        Note::Nothing => false,
        Note::Stopped(_) => true,
        Note::Continued => true,
    };
    matches!(body.life, Life::Zombie(_)) || is_unreported
}
