//! The calls that act on nothing but their caller's body.

ghost use Rattle.std.specs.Prelude.{◌≡◌, false, IsTrue, IfOk, OnErr};
ghost use Rattle.std.specs.Option.{is_some, option_map_or};
ghost use Rattle.sk_world.specs.World.{at};
ghost use Rattle.sk_world.specs.Rules.{IsWorld};
ghost use Rattle.sk_machine.specs.Memory.{is_read};
ghost use Rattle.sk_kernel.specs.Rows.{ComesTo};
ghost use Rattle.sk_kernel.specs.views.Own.{ActsOn, own_row, own_attaches};

use crate::authority::{execve, setresuid, setuid};
use crate::outcome::done;
use crate::prctl::{set_child_subreaper, set_no_new_privs, set_seccomp};
use crate::seccomp::set_mode_filter;
use crate::signals::{pause, rt_sigaction, rt_sigprocmask, rt_sigreturn};
use sk_insn::Record;
use sk_machine::{Images, Outcome};
use sk_world::{Body, ProcStore};
use std::alloc::{AllocError, Global};

/// A call that acts on nothing but its caller's body, with the options of prctl(2) and the operations of seccomp(2) apart.
#[derive(Clone, Copy)]
pub(crate) enum OwnCall {
    Sigaction,
    Sigprocmask,
    Sigreturn,
    Pause,
    Execve,
    Setuid,
    Setresuid,
    SetNoNewPrivs,
    SetChildSubreaper,
    SetSeccomp,
    SetModeFilter,
}

/// Performs such a call of the process of this pid.
pub(crate) fn perform_own<S: ProcStore>(
    store: &mut S,
    declared: &Images,
    alloc: Global,
    pid: u32,
    which: OwnCall,
    call: &Record,
) -> Result<Outcome, AllocError>
    requires rules { IsWorld (S.contents store.old) }
    requires there { IsTrue (is_some (at (S.contents store.old) pid)) }
    ensures performed { IfOk result (λ outcome.
        ComesTo (S.contents store.old) pid (λ w body. own_row declared.now w pid body which call.now) outcome (S.contents store.new)) }
    ensures memory { OnErr result (IsTrue (option_map_or (is_read declared.now) (own_attaches which call.now) false)) }
    ensures kept { OnErr result (S.contents store.new ≡ S.contents store.old) }
    ensures rules { IsWorld (S.contents store.new) }
{
    match store.body_mut(pid) {
        Some(body) => act(body, declared, alloc, pid, which, call),
        None => unreachable!(),
    }
}

fn act(
    body: &mut Body,
    declared: &Images,
    alloc: Global,
    pid: u32,
    which: OwnCall,
    call: &Record,
) -> Result<Outcome, AllocError>
    ensures performed { IfOk result (λ outcome.
        ActsOn pid body.old (λ w b. own_row declared.now w pid b which call.now) outcome body.new) }
    ensures memory { OnErr result (IsTrue (option_map_or (is_read declared.now) (own_attaches which call.now) false)) }
    ensures kept { OnErr result (body.new ≡ body.old) }
    ensures life { body.new.life ≡ body.old.life }
{
    match which {
        OwnCall::Sigaction => Ok(done(rt_sigaction(&mut body.signals, pid, call))),
        OwnCall::Sigprocmask => Ok(done(rt_sigprocmask(&mut body.signals, call))),
        OwnCall::Sigreturn => Ok(done(rt_sigreturn(&mut body.signals))),
        OwnCall::Pause => Ok(pause(body)),
        OwnCall::Execve => Ok(execve(body, declared, pid, call)),
        OwnCall::Setuid => Ok(done(setuid(&mut body.creds, call))),
        OwnCall::Setresuid => Ok(done(setresuid(&mut body.creds, call))),
        OwnCall::SetNoNewPrivs => Ok(done(set_no_new_privs(body, call))),
        OwnCall::SetChildSubreaper => Ok(done(set_child_subreaper(body, declared, call))),
        OwnCall::SetSeccomp => Ok(done(set_seccomp(body, declared, alloc, call)?)),
        OwnCall::SetModeFilter => Ok(done(set_mode_filter(body, declared, alloc, call)?)),
    }
}
