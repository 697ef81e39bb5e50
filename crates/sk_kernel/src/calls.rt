//! How the filters of a process judge its call, and what becomes of the call by each verdict.
ghost use Rattle.std.specs.Prelude.{◌≡◌, ◌&&◌, IsTrue, IfSome, IfOk, OnOk, OnErr, pos, neg_ℤ, min};
ghost use Rattle.sk_insn.specs.Actions.{performs};
ghost use Rattle.sk_names.specs.Syscalls.{syscall_of};
ghost use Rattle.sk_filter.specs.Verdict.{verdict_of};
ghost use Rattle.sk_world.specs.World.{at, is_alive};
ghost use Rattle.sk_world.specs.Rules.{IsWorld};
ghost use Rattle.sk_world.specs.Sending.{forced};
ghost use Rattle.sk_machine.specs.Memory.{may_grow, call_takes_memory};
ghost use Rattle.sk_machine.specs.declared.answer.Outcome.TheVariants.{Returned};
ghost use Rattle.sk_machine.specs.Performing.{end_of_caller};
ghost use Rattle.sk_machine.specs.Machine.{judged, called};
ghost use Rattle.sk_world.specs.declared.signals.TheConstants.{SIGSYS};

use crate::perform;
use sk_filter::Chain;
use sk_insn::{ALLOW, ARCHITECTURE, Action, Record};
use sk_machine::{Answer, Images, Outcome, end};
use sk_world::signals::SIGSYS;
use sk_world::{Errno, ProcStore};
use std::alloc::{AllocError, Global};

/// The largest number that a filter's errno returns: seccomp(2), SECCOMP_RET_ERRNO.
const MAX_ERRNO: u32 = 4095;

/// A call: the filters of the caller judge it, and it is performed or not.
pub(crate) fn call<S: ProcStore>(
    store: &mut S,
    declared: &Images,
    alloc: Global,
    pid: u32,
    call: &Record,
) -> Result<Answer, AllocError>
    requires rules { IsWorld (S.contents store.old) }
    requires alive { IsTrue (is_alive (at (S.contents store.old) pid)) }
    ensures answer { IfOk result (λ answer. IfSome (at (S.contents store.old) pid) (λ p. answer ≡ (called declared.now (S.contents store.old) pid p.body call.now).answer)) }
    ensures world { OnOk result (IfSome (at (S.contents store.old) pid) (λ p. S.contents store.new ≡ (called declared.now (S.contents store.old) pid p.body call.now).world)) }
    ensures memory { OnErr result (IsTrue (call_takes_memory declared.now (S.contents store.old) pid call.now)) }
    ensures kept { OnErr result (S.contents store.new ≡ S.contents store.old) }
{
    let verdict = verdict(store, pid, call);
    let action = Action::of(verdict);
    let outcome = judge(store, declared, alloc, pid, call, verdict, action)?;
    Ok(Answer::Call { verdict, outcome })
}

fn verdict<S: ProcStore>(store: &S, pid: u32, call: &Record) -> u32
    ensures { IfSome (at (S.contents store.now) pid) (λ p. result ≡ verdict_of p.body.chain call.now) }
{
    match store.get(pid) {
        Some(process) => verdict_by(&process.body.chain, call),
        None => ALLOW,
    }
}

// The verdict of these filters. No filter runs where all of them allow every call of x86-64 with the number.
fn verdict_by(chain: &Chain, call: &Record) -> u32
    ensures { result ≡ verdict_of chain.now call.now }
{
    if call.arch == ARCHITECTURE && chain.always(call.nr) {
        ALLOW
    } else {
        chain.verdict(call)
    }
}

// What becomes of a call by its verdict, which asks for this action.
fn judge<S: ProcStore>(
    store: &mut S,
    declared: &Images,
    alloc: Global,
    pid: u32,
    call: &Record,
    verdict: u32,
    action: Action,
) -> Result<Outcome, AllocError>
    requires rules { IsWorld (S.contents store.old) }
    requires alive { IsTrue (is_alive (at (S.contents store.old) pid)) }
    ensures answer { IfOk result (λ outcome. IfSome (at (S.contents store.old) pid) (λ p. outcome ≡ (judged declared.now (S.contents store.old) pid p.body call.now verdict action).outcome)) }
    ensures world { OnOk result (IfSome (at (S.contents store.old) pid) (λ p. S.contents store.new ≡ (judged declared.now (S.contents store.old) pid p.body call.now verdict action).world)) }
    ensures memory { OnErr result (IsTrue (performs action && may_grow declared.now (S.contents store.old) pid (syscall_of call.now.nr) call.now)) }
    ensures kept { OnErr result (S.contents store.new ≡ S.contents store.old) }
{
    match action {
        Action::Allow | Action::Log => perform(store, declared, alloc, pid, call),
        Action::Trap => {
            force(store, pid);
            Ok(Outcome::Trapped)
        }
        Action::Errno => Ok(refused(verdict % 0x1_0000)),
        Action::UserNotif | Action::Trace => Ok(Outcome::failed(Errno::Enosys)),
        Action::KillProcess | Action::KillThread | Action::Unknown => Ok(kill(store, pid)),
    }
}

// What a call returns that a filter refuses with this errno.
fn refused(errno: u32) -> Outcome
    ensures { result ≡ Returned (neg_ℤ (pos (min errno 4095))) }
{
    Outcome::Returned(-i64::from(errno.min(MAX_ERRNO)))
}

// Ends a process whose filter kills it, as SIGSYS does.
fn kill<S: ProcStore>(store: &mut S, pid: u32) -> Outcome
    requires rules { IsWorld (S.contents store.old) }
    requires alive { IsTrue (is_alive (at (S.contents store.old) pid)) }
    ensures answer { result ≡ (end_of_caller (S.contents store.old) pid SIGSYS).outcome }
    ensures world { S.contents store.new ≡ (end_of_caller (S.contents store.old) pid SIGSYS).world }
{
    end(store, pid, u32::from(SIGSYS));
    Outcome::Ended(u32::from(SIGSYS))
}

// Forces SIGSYS on a process: seccomp(2), SECCOMP_RET_TRAP.
fn force<S: ProcStore>(store: &mut S, pid: u32)
    ensures { S.contents store.new ≡ forced (S.contents store.old) pid }
{
    if let Some(body) = store.body_mut(pid) {
        body.signals.force();
    }
}
