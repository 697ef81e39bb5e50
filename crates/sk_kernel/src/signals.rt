//! The calls by which a process changes its own signals, and waits for one.

ghost use Rattle.std.specs.Prelude.{◌≡◌, ◌==◌};
ghost use Rattle.std.specs.Result.{result_unwrap_or};
ghost use Rattle.sk_world.specs.Errno.{answer_of};
ghost use Rattle.sk_world.specs.declared.process.Waiting.TheVariants as waiting;
ghost use Rattle.sk_machine.specs.declared.answer.Outcome.TheVariants.{Waits};
ghost use Rattle.sk_machine.specs.Performed.{waiting_in};
ghost use Rattle.sk_machine.specs.SignalCalls.{can_be_caught, disposition_in, after_sigaction, after_sigprocmask, after_sigreturn};

use sk_insn::Record;
use sk_machine::{Outcome, register, unsigned};
use sk_world::signals::{SIGKILL, SIGSTOP};
use sk_world::{Body, Disposition, Errno, INIT, SigSet, SigState, Waiting};

const SIG_BLOCK: u32 = 0;

const SIG_UNBLOCK: u32 = 1;

const SIG_SETMASK: u32 = 2;

/// sigaction(2).
pub(crate) fn rt_sigaction(signals: &mut SigState, pid: u32, call: &Record) -> Result<(), Errno>
    ensures answer { result ≡ answer_of (after_sigaction pid call.now signals.old) }
    ensures signals { signals.new ≡ result_unwrap_or (after_sigaction pid call.now signals.old) signals.old }
{
    let signal = unsigned(call, 0);
    if !can_be_caught(signal) {
        return Err(Errno::Einval);
    }
    let disposition = disposition_in(register(call, 1), register(call, 2));
    signals.set_action(signal as u8, disposition, pid == INIT);
    Ok(())
}

fn can_be_caught(signal: u32) -> bool
    ensures { result ≡ can_be_caught signal }
{
    (1..=31).contains(&signal) && signal != u32::from(SIGKILL) && signal != u32::from(SIGSTOP)
}

fn disposition_in(action: u64, mask: u64) -> Disposition
    ensures { result ≡ disposition_in action mask }
{
    match action {
        0 => Disposition::Default,
        1 => Disposition::Ignore,
        _ => Disposition::Handler {
            program: action - 2,
            mask: SigSet::from_bits_truncate(mask).blockable(),
        },
    }
}

/// sigprocmask(2).
pub(crate) fn rt_sigprocmask(signals: &mut SigState, call: &Record) -> Result<(), Errno>
    ensures answer { result ≡ answer_of (after_sigprocmask call.now signals.old) }
    ensures signals { signals.new ≡ result_unwrap_or (after_sigprocmask call.now signals.old) signals.old }
{
    let set = SigSet::from_bits_truncate(register(call, 1));
    let mask = match unsigned(call, 0) {
        SIG_BLOCK => signals.mask().union(set),
        SIG_UNBLOCK => signals.mask().difference(set),
        SIG_SETMASK => set,
        _ => return Err(Errno::Einval),
    };
    signals.set_mask(mask);
    Ok(())
}

/// sigreturn(2).
pub(crate) fn rt_sigreturn(signals: &mut SigState) -> Result<(), Errno>
    ensures answer { result ≡ answer_of (after_sigreturn signals.old.frames signals.old) }
    ensures signals { signals.new ≡ result_unwrap_or (after_sigreturn signals.old.frames signals.old) signals.old }
{
    if signals.pop_frame() {
        Ok(())
    } else {
        Err(Errno::Einval)
    }
}

/// pause(2). It ends by a signal alone.
pub(crate) fn pause(body: &mut Body) -> Outcome
    ensures answer { result ≡ Waits }
    ensures body { body.new ≡ waiting_in waiting.Pause body.old }
{
    body.waiting = Waiting::Pause;
    Outcome::Waits
}
