//! prctl(2).

ghost use Rattle.std.specs.Prelude.{◌≡◌, ◌==◌, ◌&&◌, not, false, if◌then◌else◌, IsTrue, IfOk, OnOk, OnErr, Option, Some, None, Ok, Err};
ghost use Rattle.std.specs.Option.{is_some, option_map_or};
ghost use Rattle.sk_world.specs.declared.errno.Errno.TheVariants.{Einval};
ghost use Rattle.sk_world.specs.Errno.{answer_of};
ghost use Rattle.sk_world.specs.World.{World, at};
ghost use Rattle.sk_world.specs.Rules.{IsWorld};
ghost use Rattle.sk_machine.specs.Arguments.{register, unsigned, prctl_option_of};
ghost use Rattle.sk_machine.specs.Authority.{authority_of, after_no_new_privs, after_set_seccomp};
ghost use Rattle.sk_machine.specs.Memory.{is_read, prctl_attaches};
ghost use Rattle.sk_machine.specs.Performing.{prctl, seccomp_mode, no_new_privs_asked, with_subreaper};
ghost use Rattle.sk_machine.specs.declared.operation.PrctlOption.TheVariants as option;
ghost use Rattle.sk_kernel.specs.Rows.{ComesTo};
ghost use Rattle.sk_kernel.specs.views.Own.{reauthorised};

use crate::attaching::attach;
use crate::caller::caller;
use crate::outcome::returned;
use crate::own::{OwnCall, perform_own};
use sk_insn::Record;
use sk_machine::{Images, Outcome, PrctlOption, register, unsigned};
use sk_world::{Body, Errno, ProcStore};
use std::alloc::{AllocError, Global};

const SECCOMP_MODE_FILTER: u32 = 2;

/// prctl(2), by its option.
pub(crate) fn prctl<S: ProcStore>(
    store: &mut S,
    declared: &Images,
    alloc: Global,
    pid: u32,
    call: &Record,
) -> Result<Outcome, AllocError>
    requires rules { IsWorld (S.contents store.old) }
    requires there { IsTrue (is_some (at (S.contents store.old) pid)) }
    ensures performed { IfOk result (λ outcome.
        ComesTo (S.contents store.old) pid (λ w body. prctl declared.now w pid body (prctl_option_of (unsigned call.now 0)) call.now) outcome (S.contents store.new)) }
    ensures memory { OnErr result (IsTrue (option_map_or (is_read declared.now) (prctl_attaches (prctl_option_of (unsigned call.now 0)) call.now) false)) }
    ensures kept { OnErr result (S.contents store.new ≡ S.contents store.old) }
    ensures rules { IsWorld (S.contents store.new) }
{
    match PrctlOption::of(unsigned(call, 0)) {
        Some(PrctlOption::SetSeccomp) => {
            perform_own(store, declared, alloc, pid, OwnCall::SetSeccomp, call)
        }
        Some(PrctlOption::SetNoNewPrivs) => {
            perform_own(store, declared, alloc, pid, OwnCall::SetNoNewPrivs, call)
        }
        Some(PrctlOption::SetChildSubreaper) => {
            perform_own(
                store,
                declared,
                alloc,
                pid,
                OwnCall::SetChildSubreaper,
                call,
            )
        }
        Some(PrctlOption::GetSeccomp) => {
            Ok(returned(Ok(seccomp_mode(&caller(store, pid).body))))
        }
        Some(PrctlOption::GetNoNewPrivs) => {
            let is_set = caller(store, pid).body.creds.no_new_privs;
            Ok(returned(no_new_privs_asked(call, is_set)))
        }
        Some(PrctlOption::GetChildSubreaper) => {
            Ok(returned(child_subreaper_asked(declared, caller(store, pid).body.subreaper)))
        }
        None => Ok(Outcome::failed(Errno::Einval)),
    }
}

/// prctl(2), PR_SET_SECCOMP.
pub(crate) fn set_seccomp(
    body: &mut Body,
    declared: &Images,
    alloc: Global,
    call: &Record,
) -> Result<Result<(), Errno>, AllocError>
    ensures answer { IfOk result (λ answer. answer ≡ answer_of (after_set_seccomp declared.now call.now (authority_of body.old))) }
    ensures body { OnOk result (body.new ≡ reauthorised (after_set_seccomp declared.now call.now (authority_of body.old)) body.old) }
    ensures memory { OnErr result (IsTrue (option_map_or (is_read declared.now) (prctl_attaches (Some option.SetSeccomp) call.now) false)) }
    ensures kept { OnErr result (body.new ≡ body.old) }
{
    if register(call, 1) == u64::from(SECCOMP_MODE_FILTER) {
        attach(body, declared, alloc, 0, register(call, 2))
    } else {
        Ok(Err(Errno::Einval))
    }
}

fn seccomp_mode(body: &Body) -> u32
    ensures { result ≡ seccomp_mode body.now.chain }
{
    if body.chain.is_empty() {
        0
    } else {
        SECCOMP_MODE_FILTER
    }
}

/// prctl(2), PR_SET_NO_NEW_PRIVS.
pub(crate) fn set_no_new_privs(body: &mut Body, call: &Record) -> Result<(), Errno>
    ensures answer { result ≡ answer_of (after_no_new_privs call.now (authority_of body.old)) }
    ensures body { body.new ≡ reauthorised (after_no_new_privs call.now (authority_of body.old)) body.old }
{
    if register(call, 1) != 1 || !has_no_more(call) {
        return Err(Errno::Einval);
    }
    body.creds.no_new_privs = true;
    Ok(())
}

// Whether the registers that a call about no_new_privs leaves unused are 0.
fn has_no_more(call: &Record) -> bool
    ensures { result ≡ ((register call.now 2 == 0) && (register call.now 3 == 0) && (register call.now 4 == 0)) }
{
    register(call, 2) == 0 && register(call, 3) == 0 && register(call, 4) == 0
}

fn no_new_privs_asked(call: &Record, is_set: bool) -> Result<u32, Errno>
    ensures { result ≡ no_new_privs_asked call.now is_set }
{
    if register(call, 1) != 0 || !has_no_more(call) {
        return Err(Errno::Einval);
    }
    Ok(u32::from(is_set))
}

/// prctl(2), PR_SET_CHILD_SUBREAPER.
pub(crate) fn set_child_subreaper(
    body: &mut Body,
    declared: &Images,
    call: &Record,
) -> Result<(), Errno>
    ensures answer { result ≡ (if declared.now.subreapers then Ok tt else Err Einval) }
    ensures body { body.new ≡ (if declared.now.subreapers then with_subreaper (not (register call.now 1 == 0)) body.old else body.old) }
{
    if !declared.subreapers {
        return Err(Errno::Einval);
    }
    body.subreaper = register(call, 1) != 0;
    Ok(())
}

fn child_subreaper_asked(declared: &Images, is_marked: bool) -> Result<u32, Errno>
    ensures { result ≡ (if declared.now.subreapers then Ok (if is_marked then 1 else 0) else Err Einval) }
{
    if !declared.subreapers {
        return Err(Errno::Einval);
    }
    Ok(u32::from(is_marked))
}
