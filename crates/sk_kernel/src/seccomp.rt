//! seccomp(2).

ghost use Rattle.std.specs.Prelude.{◌≡◌, false, IsTrue, IfOk, OnOk, OnErr, Option, Some};
ghost use Rattle.std.specs.Option.{is_some, option_map_or};
ghost use Rattle.sk_world.specs.Errno.{answer_of};
ghost use Rattle.sk_world.specs.World.{at};
ghost use Rattle.sk_world.specs.Rules.{IsWorld};
ghost use Rattle.sk_machine.specs.Arguments.{unsigned, seccomp_operation_of};
ghost use Rattle.sk_machine.specs.Authority.{authority_of, after_set_mode_filter};
ghost use Rattle.sk_machine.specs.Memory.{is_read, seccomp_attaches};
ghost use Rattle.sk_machine.specs.Performing.{seccomp, action_available};
ghost use Rattle.sk_machine.specs.declared.operation.SeccompOperation.TheVariants as operation;
ghost use Rattle.sk_kernel.specs.Rows.{ComesTo};
ghost use Rattle.sk_kernel.specs.views.Own.{reauthorised};

use crate::attaching::attach;
use crate::outcome::returned;
use crate::own::{OwnCall, perform_own};
use sk_insn::{Action, Record};
use sk_machine::{Images, Outcome, SeccompOperation, register, unsigned};
use sk_world::{Body, Errno, ProcStore};
use std::alloc::{AllocError, Global};

/// seccomp(2), by its operation.
pub(crate) fn seccomp<S: ProcStore>(
    store: &mut S,
    declared: &Images,
    alloc: Global,
    pid: u32,
    call: &Record,
) -> Result<Outcome, AllocError>
    requires rules { IsWorld (S.contents store.old) }
    requires there { IsTrue (is_some (at (S.contents store.old) pid)) }
    ensures performed { IfOk result (λ outcome.
        ComesTo (S.contents store.old) pid (λ w body. seccomp declared.now w pid body (seccomp_operation_of (unsigned call.now 0)) call.now) outcome (S.contents store.new)) }
    ensures memory { OnErr result (IsTrue (option_map_or (is_read declared.now) (seccomp_attaches (seccomp_operation_of (unsigned call.now 0)) call.now) false)) }
    ensures kept { OnErr result (S.contents store.new ≡ S.contents store.old) }
    ensures rules { IsWorld (S.contents store.new) }
{
    match SeccompOperation::of(unsigned(call, 0)) {
        Some(SeccompOperation::SetModeFilter) => {
            perform_own(store, declared, alloc, pid, OwnCall::SetModeFilter, call)
        }
        Some(SeccompOperation::GetActionAvail) => {
            Ok(returned(action_available(unsigned(call, 1), unsigned(call, 2))))
        }
        None => Ok(Outcome::failed(Errno::Einval)),
    }
}

/// seccomp(2), SECCOMP_SET_MODE_FILTER.
pub(crate) fn set_mode_filter(
    body: &mut Body,
    declared: &Images,
    alloc: Global,
    call: &Record,
) -> Result<Result<(), Errno>, AllocError>
    ensures answer { IfOk result (λ answer. answer ≡ answer_of (after_set_mode_filter declared.now call.now (authority_of body.old))) }
    ensures body { OnOk result (body.new ≡ reauthorised (after_set_mode_filter declared.now call.now (authority_of body.old)) body.old) }
    ensures memory { OnErr result (IsTrue (option_map_or (is_read declared.now) (seccomp_attaches (Some operation.SetModeFilter) call.now) false)) }
    ensures kept { OnErr result (body.new ≡ body.old) }
{
    attach(body, declared, alloc, unsigned(call, 1), register(call, 2))
}

fn action_available(flags: u32, value: u32) -> Result<u32, Errno>
    ensures { result ≡ action_available flags value }
{
    if flags != 0 {
        return Err(Errno::Einval);
    }
    if Action::of(value).value().is_some() && value % 65536 == 0 {
        Ok(0)
    } else {
        Err(Errno::Eopnotsupp)
    }
}
