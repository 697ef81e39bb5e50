//! What a wait4(2) finds and tells, and how a zombie is reaped.
ghost use Rattle.std.specs.Prelude.{◌≡◌, ◌≢◌, IsTrue, None, Some, if◌then◌else◌};
ghost use Rattle.std.specs.Option.{is_some, option_map};
ghost use Rattle.sk_world.specs.declared.process.TheConstants.{INIT};
ghost use Rattle.sk_world.specs.declared.process.Life.TheVariants.{Zombie};
ghost use Rattle.sk_world.specs.World.{at, is_zombie, stored, changed};
ghost use Rattle.sk_world.specs.Rules.{IsWorld};
ghost use Rattle.sk_world.specs.Waits.{is_match, status_of_note, status_of, ready_of, without_note, told};

use crate::asking::{is_asked_for, is_zombie};
use crate::process::{Life, Note};
use crate::request::{Poll, Request, WaitOptions};
use crate::store::ProcStore;
use bitflags::Flags;

/// What a wait4(2) of the caller finds. A zombie that is told of goes, and a note is told once.
pub fn wait_poll<S: ProcStore>(store: &mut S, caller: u32, request: &Request) -> Poll
    requires rules { IsWorld (S.contents store.old) }
    requires there { IsTrue (is_some (at (S.contents store.old) caller)) }
    ensures answer { result ≡ ready_of (S.contents store.old) caller request.now }
    ensures world { S.contents store.new ≡ told (S.contents store.old) result }
    ensures rules { IsWorld (S.contents store.new) }
{
    let poll = ready(store, caller, request);
    tell(store, poll);
    poll
}

/// Takes a zombie out, and gives its status.
pub fn reap<S: ProcStore>(store: &mut S, pid: u32) -> u32
    requires rules { IsWorld (S.contents store.old) }
    requires zombie { IsTrue (is_zombie (at (S.contents store.old) pid)) }
    requires other { pid ≢ INIT }
    ensures status { option_map (λ p. p.body.life) (at (S.contents store.old) pid) ≡ Some (Zombie result) }
    ensures gone { S.contents store.new ≡ stored (S.contents store.old) pid None }
    ensures rules { IsWorld (S.contents store.new) }
{
    let status = status_of_zombie(store, pid);
    store.remove(pid);
    status
}

fn status_of_zombie<S: ProcStore>(store: &S, pid: u32) -> u32
    requires { IsTrue (is_zombie (at (S.contents store.now) pid)) }
    ensures { option_map (λ p. p.body.life) (at (S.contents store.now) pid) ≡ Some (Zombie result) }
{
    match store.get(pid) {
        Some(process) => match process.body.life {
            Life::Zombie(status) => status,
            _ => unreachable!(),
        },
        None => unreachable!(),
    }
}

/// What a wait4(2) of the caller would find. Nothing is told.
pub fn ready<S: ProcStore>(store: &S, caller: u32, request: &Request) -> Poll
    requires rules { IsWorld (S.contents store.now) }
    ensures answer { result ≡ ready_of (S.contents store.now) caller request.now }
{
    let mut is_matched = false;
    let mut after = 0;
    while let Some(child) = store.next_child(caller, after) {
        if is_match(store, caller, *request, child) {
            if let Some(status) = status_of(store, request.options, child) {
                return Poll::Told { pid: child, status };
            }
            is_matched = true;
        }
        after = child;
    }
    if is_matched {
        Poll::NotReady
    } else {
        Poll::NoMatch
    }
}

fn is_match<S: ProcStore>(store: &S, caller: u32, request: Request, pid: u32) -> bool
    ensures { result ≡ is_match caller request pid (at (S.contents store.now) pid) }
{
    match store.get(pid) {
        Some(process) => process.links.parent == caller && is_asked_for(request.who, pid, process),
        None => false,
    }
}

fn status_of<S: ProcStore>(store: &S, options: WaitOptions, pid: u32) -> Option<u32>
    ensures { result ≡ status_of options (at (S.contents store.now) pid) }
{
    match store.get(pid) {
        Some(process) => match process.body.life {
            Life::Zombie(status) => Some(status),
            Life::Stopped => status_of_note(options, process.body.note),
            Life::Running => status_of_note(options, process.body.note),
        },
        None => None,
    }
}

fn status_of_note(options: WaitOptions, note: Note) -> Option<u32>
    ensures { result ≡ status_of_note options note }
{
    match note {
        Note::Nothing => None,
        Note::Stopped(signal) => {
            if options.contains(WaitOptions::WUNTRACED) {
                Some(u32::from(signal) * 256 + 0x7f)
            } else {
                None
            }
        }
        Note::Continued => {
            if options.contains(WaitOptions::WCONTINUED) {
                Some(0xffff)
            } else {
                None
            }
        }
    }
}

fn tell<S: ProcStore>(store: &mut S, poll: Poll)
    ensures { S.contents store.new ≡ told (S.contents store.old) poll }
{
    if let Poll::Told { pid, status: _ } = poll {
        if is_zombie(store, pid) {
            store.remove(pid);
        } else {
            forget_note(store, pid);
        }
    }
}

fn forget_note<S: ProcStore>(store: &mut S, pid: u32)
    ensures { S.contents store.new ≡ changed (S.contents store.old) pid without_note }
{
    if let Some(body) = store.body_mut(pid) {
        body.note = Note::Nothing;
    }
}
