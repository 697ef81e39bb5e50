//! The calls that change what a process may do, other than by prctl(2) and seccomp(2).

ghost use Rattle.std.specs.Prelude.{◌≡◌};
ghost use Rattle.sk_world.specs.Creds.{after_setuid, after_setresuid, after_exec};
ghost use Rattle.std.specs.Result.{result_unwrap_or};
ghost use Rattle.sk_world.specs.Errno.{answer_of};
ghost use Rattle.sk_machine.specs.Arguments.{register, unsigned};
ghost use Rattle.sk_machine.specs.Authority.{authority_of, after_execve};
ghost use Rattle.sk_machine.specs.Images.{mark_of};
ghost use Rattle.sk_machine.specs.Performing.{executing, execve};
ghost use Rattle.sk_kernel.specs.views.Own.{ActsOn};

use sk_insn::Record;
use sk_machine::{Images, Mark, Outcome, register, unsigned};
use sk_world::{Body, Creds, Errno};

/// setuid(2).
pub(crate) fn setuid(creds: &mut Creds, call: &Record) -> Result<(), Errno>
    ensures answer { result ≡ answer_of (after_setuid (unsigned call.now 0) creds.old) }
    ensures ids { creds.new ≡ result_unwrap_or (after_setuid (unsigned call.now 0) creds.old) creds.old }
{
    creds.setuid(unsigned(call, 0))
}

/// setresuid(2).
pub(crate) fn setresuid(creds: &mut Creds, call: &Record) -> Result<(), Errno>
    ensures answer { result ≡ answer_of (after_setresuid (unsigned call.now 0) (unsigned call.now 1) (unsigned call.now 2) creds.old) }
    ensures ids { creds.new ≡ result_unwrap_or (after_setresuid (unsigned call.now 0) (unsigned call.now 1) (unsigned call.now 2) creds.old) creds.old }
{
    creds.setresuid(unsigned(call, 0), unsigned(call, 1), unsigned(call, 2))
}

/// execve(2).
pub(crate) fn execve(body: &mut Body, declared: &Images, pid: u32, call: &Record) -> Outcome
    ensures performed { ActsOn pid body.old
        (λ w b. execve w pid (after_execve (authority_of b) (mark_of declared.now (register call.now 0)))) result body.new }
    ensures life { body.new.life ≡ body.old.life }
{
    match mark_of(declared, register(call, 0)) {
        Some(mark) => {
            run(body, mark);
            Outcome::Executed
        }
        None => Outcome::failed(Errno::Enoent),
    }
}

fn mark_of(declared: &Images, program: u64) -> Option<Mark>
    ensures { result ≡ mark_of declared.now program }
{
    declared.programs.get(program as usize).copied()
}

fn run(body: &mut Body, mark: Mark)
    ensures { body.new ≡ executing (record (authority_of body.old) { creds = after_exec mark.owner mark.setuid body.old.creds }) body.old }
{
    body.creds.after_exec(mark.owner, mark.setuid);
    body.signals.after_exec();
    body.executed = true;
}
