//! Whose turn is next, where only those that are noted and the waiter are asked.
ghost use Rattle.std.specs.Prelude.{◌≡◌, ℕ, Bool, ◌&&◌, IfSome, None, find, nat_lt};
ghost use Rattle.std.specs.Option.{option_map};
ghost use Rattle.sk_world.specs.Processes.{pids};
ghost use Rattle.sk_world.specs.Rules.{IsWorld};
ghost use Rattle.sk_machine.specs.Machine.{halted_of};
ghost use Rattle.sk_machine.specs.Turns.{is_runnable, need_of, next_of};
ghost use Rattle.sk_kernel.specs.views.Noting.{NoOtherPasses, PassesOver};

use crate::turns::need_to_run;
use sk_machine::Need;
use sk_world::{NumberSet, ProcStore};

/// A process that can run, and what its next event is.
#[derive(Clone, Copy, PartialEq, Eq, Debug)]
pub struct Runner {
    pub pid: u32,
    pub need: Need,
}

/// Whose turn is next, where nobody can run but those that are noted and the waiter: the process with the least pid above
/// `last` that can run, else with the least of all. The system has not halted.
#[inline(always)]
pub(crate) fn next_in_turn<S: ProcStore>(
    store: &S,
    noted: &NumberSet,
    waiter: Option<u32>,
    last: u32,
) -> Option<Runner>
    requires rules { IsWorld (S.contents store.now) }
    requires goes_on { halted_of (S.contents store.now) ≡ None }
    requires others { NoOtherPasses (is_runnable (S.contents store.now)) noted.now waiter }
    ensures pid { option_map (λ runner. runner.pid) result ≡ next_of (S.contents store.now) last }
    ensures need { IfSome result (λ runner. runner.need ≡ need_of (S.contents store.now) runner.pid) }
{
    match first_runnable(store, noted, waiter, last) {
        Some(runner) => Some(runner),
        None => first_runnable(store, noted, waiter, 0),
    }
}

/// The same where there is a waiter, which few turns have.
#[inline(never)]
pub(crate) fn next_beside_waiter<S: ProcStore>(
    store: &S,
    noted: &NumberSet,
    waiter: Option<u32>,
    last: u32,
) -> Option<Runner>
    requires rules { IsWorld (S.contents store.now) }
    requires goes_on { halted_of (S.contents store.now) ≡ None }
    requires others { NoOtherPasses (is_runnable (S.contents store.now)) noted.now waiter }
    ensures pid { option_map (λ runner. runner.pid) result ≡ next_of (S.contents store.now) last }
    ensures need { IfSome result (λ runner. runner.need ≡ need_of (S.contents store.now) runner.pid) }
{
    next_in_turn(store, noted, waiter, last)
}

// The process with the least pid above `after` that can run, where nobody can but those that are noted and the waiter.
// The system has not halted.
#[inline(always)]
fn first_runnable<S: ProcStore>(
    store: &S,
    noted: &NumberSet,
    waiter: Option<u32>,
    after: u32,
) -> Option<Runner>
    requires rules { IsWorld (S.contents store.now) }
    requires goes_on { halted_of (S.contents store.now) ≡ None }
    requires others { NoOtherPasses (is_runnable (S.contents store.now)) noted.now waiter }
    ensures pid { option_map (λ runner. runner.pid) result ≡ find (λ pid. nat_lt after pid && is_runnable (S.contents store.now) pid) (pids (S.contents store.now).procs) }
    ensures need { IfSome result (λ runner. runner.need ≡ need_of (S.contents store.now) runner.pid) }
{
    let mut passed = after;
    while let Some(pid) = next_candidate(noted, waiter, passed) {
        if let Some(need) = need_to_run(store, pid) {
            return Some(Runner { pid, need });
        }
        passed = pid;
    }
    None
}

// The next pid above `after` that has to be asked: that of one that is noted, or of the waiter.
#[inline(always)]
fn next_candidate(noted: &NumberSet, waiter: Option<u32>, after: u32) -> Option<u32>
    ensures { (test : ℕ → Bool) → NoOtherPasses test noted.now waiter → PassesOver test after result }
{
    let next = noted.next(after);
    let Some(parent) = waiter else {
        return next;
    };
    if parent <= after {
        return next;
    }
    match next {
        Some(pid) => Some(pid.min(parent)),
        None => Some(parent),
    }
}
