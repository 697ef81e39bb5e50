//! The signals of a process on their way: how they come to pend, are taken, and run handlers in frames.
ghost use Rattle.std.specs.Prelude.{◌≡◌, ◌≢◌, ◌==◌, ◌||◌, ◌↔◌, not, if◌then◌else◌, length, IsTrue, IsFalse, IsNone, IfSome};
ghost use Rattle.std.specs.Bool.{OnTrue};
ghost use Rattle.sk_world.specs.Sets as set;
ghost use Rattle.sk_world.specs.declared.signals.TheConstants.{SIGKILL, SIGSTOP, SIGSYS};
ghost use Rattle.sk_world.specs.declared.signal_state.TheConstants.{FRAMES};
ghost use Rattle.sk_world.specs.SignalSet.{IsSignal};
ghost use Rattle.sk_world.specs.Actions.{is_ignore};
ghost use Rattle.sk_world.specs.SignalState.{disposition_of, NeverBlocksKill};
ghost use Rattle.sk_world.specs.Generation.{left_pending, generated, forced};
ghost use Rattle.sk_world.specs.Delivery.{ready, deliverable, taken, pushed, popped};
ghost use Rattle.sk_world.specs.Signalling.{opening, with_mask, with_action, after_exec, forked, cleared};

use crate::disposition::Disposition;
use crate::signal_set::SigSet;
use crate::signals::{SIGCONT, SIGKILL, SIGSTOP, SIGSYS, SIGTSTP, SIGTTIN, SIGTTOU};
use std::marker::Model;

/// How many handlers of a process can run inside one another.
pub const FRAMES: usize = 16;

const SIGNALS: usize = 31;

/// The signals of a process: its mask, its pending set, the disposition of each signal, and a frame
/// for each handler that runs.
#[derive(Debug, Drop)]
pub struct SigState {
    mask: SigSet,
    pending: SigSet,
    dispositions: [Disposition; SIGNALS],
    frames: [SigSet; FRAMES],
    depth: usize,
}

impl Model for SigState {
    ghost use Rattle.std.specs.Prelude.{◌≤◌};
    ghost use Rattle.sk_world.specs.SignalState.{SignalState, AllBlockable};
    ghost use Rattle.sk_world.specs.views.StateView.{state_code, frames_of};
    ghost use Rattle.sk_world.specs.declared.signal_state.TheConstants.{FRAMES};

    ghost Value = { SignalState };

    ghost coded = { state_code };

    ghost view = { λ s. record { mask = s.mask; pending = s.pending; dispositions = s.dispositions; frames = frames_of s.depth s.frames } };

    ghost invariant = { λ s. (s.depth ≤ FRAMES) × AllBlockable s.mask (frames_of s.depth s.frames) };
}

impl SigState {
    /// The state of process 1 as the system starts.
    pub fn new() -> SigState
        ensures { result ≡ opening }
    {
        SigState {
            mask: SigSet::empty(),
            pending: SigSet::empty(),
            dispositions: [Disposition::Default; SIGNALS],
            frames: [SigSet::empty(); FRAMES],
            depth: 0,
        }
    }

    /// The signals that are blocked.
    pub fn mask(&self) -> SigSet
        ensures value { result ≡ self.now.mask }
        ensures never_blocks_kill { NeverBlocksKill self.now }
    {
        self.mask
    }

    /// The signals that wait for their delivery.
    pub fn pending(&self) -> SigSet
        ensures { result ≡ self.now.pending }
    {
        self.pending
    }

    /// The disposition of a signal.
    pub fn action(&self, signal: u8) -> Disposition
        requires { IsSignal signal }
        ensures { result ≡ disposition_of self.now signal }
    {
        self.dispositions[signal as usize - 1]
    }

    /// Makes a signal pending that was sent to this process, unless it is ignored. `init` says that
    /// the process is process 1.
    pub fn generate(&mut self, signal: u8, init: bool)
        requires { IsSignal signal }
        ensures state { self.new ≡ generated signal init self.old }
        ensures once { generated signal init self.new ≡ self.new }
    {
        let disposition = self.action(signal);
        if init && !disposition.is_handler() {
            return;
        }
        let left = left_pending(signal, self.pending);
        let is_dropped = disposition.ignores(signal, init) && !self.mask.contains(signal);
        self.pending = if is_dropped { left } else { left.with(signal) };
    }

    /// The signal that is delivered next to a process that is not stopped.
    pub fn deliverable(&self) -> Option<u8>
        ensures value { result ≡ deliverable self.now }
        ensures signal { IfSome result IsSignal }
        ensures unblocked { IfSome result (λ n. IsTrue (set.contains self.now.pending n) × IsFalse (set.contains self.now.mask n)) }
        ensures none { IsNone result ↔ (ready self.now ≡ set.empty) }
    {
        let ready = self.pending.difference(self.mask);
        if ready.contains(SIGKILL) {
            return Some(SIGKILL);
        }
        ready.lowest()
    }

    /// Takes a signal out of the pending set.
    pub fn take(&mut self, signal: u8)
        requires { IsSignal signal }
        ensures { self.new ≡ taken signal self.old }
    {
        self.pending = self.pending.without(signal);
    }

    /// Sets the mask: sigprocmask(2). SIGKILL and SIGSTOP stay out of it.
    pub fn set_mask(&mut self, mask: SigSet)
        ensures { self.new ≡ with_mask mask self.old }
    {
        self.mask = mask.blockable();
    }

    /// Sets the disposition of a signal: sigaction(2). `init` says that the process is process 1.
    pub fn set_action(&mut self, signal: u8, disposition: Disposition, init: bool)
        requires number { IsSignal signal }
        requires changeable { (signal ≢ SIGKILL) × (signal ≢ SIGSTOP) }
        ensures { self.new ≡ with_action signal disposition init self.old }
    {
        self.dispositions[signal as usize - 1] = disposition;
        if disposition.ignores(signal, init) {
            self.take(signal);
        }
    }

    /// Begins a handler of the signal, with the handler's mask: signal(7). False where as many
    /// handlers run as can.
    pub fn push_frame(&mut self, signal: u8, mask: SigSet) -> bool
        requires { IsSignal signal }
        ensures room { result ≡ not (length self.old.frames == FRAMES) }
        ensures state { self.new ≡ (if result then pushed signal mask self.old else self.old) }
        ensures undone { OnTrue result (popped self.new ≡ self.old) }
    {
        if self.depth == FRAMES {
            return false;
        }
        self.frames[self.depth] = self.mask;
        self.depth += 1;
        self.mask = self.mask.union(mask).with(signal).blockable();
        true
    }

    /// Ends the newest handler: sigreturn(2). False where none runs.
    pub fn pop_frame(&mut self) -> bool
        ensures running { result ≡ not (length self.old.frames == 0) }
        ensures state { self.new ≡ popped self.old }
    {
        if self.depth == 0 {
            return false;
        }
        self.depth -= 1;
        self.mask = self.frames[self.depth];
        true
    }

    /// Makes SIGSYS pending so that it is delivered, as seccomp(2) does to trap a call.
    pub fn force(&mut self)
        ensures { self.new ≡ forced self.old }
    {
        if self.holds_back_sigsys() {
            self.dispositions[SIGSYS as usize - 1] = Disposition::Default;
            self.mask = self.mask.without(SIGSYS);
        }
        self.pending = self.pending.with(SIGSYS);
    }

    fn holds_back_sigsys(&self) -> bool
        ensures { result ≡ (set.contains self.now.mask SIGSYS || is_ignore (disposition_of self.now SIGSYS)) }
    {
        self.mask.contains(SIGSYS) || self.action(SIGSYS).is_ignore()
    }

    /// Gives the process the state that it has once it runs another program: execve(2).
    pub fn after_exec(&mut self)
        ensures { self.new ≡ after_exec self.old }
    {
        for disposition in &mut self.dispositions {
            *disposition = disposition.after_exec();
        }
        self.depth = 0;
    }

    /// The state of a child that this process forks: fork(2).
    pub fn forked(&self) -> SigState
        ensures { result ≡ forked self.now }
    {
        SigState {
            mask: self.mask,
            pending: SigSet::empty(),
            dispositions: copied(&self.dispositions),
            frames: self.frames,
            depth: self.depth,
        }
    }

    /// Empties the pending set and the frames, as the end of a process does.
    pub fn clear(&mut self)
        ensures { self.new ≡ cleared self.old }
    {
        self.pending = SigSet::empty();
        self.depth = 0;
    }
}

// An array of enums is copied element by element out of a reference.
fn copied(dispositions: &[Disposition; SIGNALS]) -> [Disposition; SIGNALS]
    ensures { result ≡ dispositions.now }
{
    let mut copy = [Disposition::Default; SIGNALS];
    copy.copy_from_slice(dispositions);
    copy
}

// What is left of the pending set when the signal is generated: SIGCONT and the stop signals
// discard one another.
fn left_pending(signal: u8, pending: SigSet) -> SigSet
    ensures { result ≡ left_pending signal pending }
{
    match signal {
        SIGCONT => pending
            .without(SIGSTOP)
            .without(SIGTSTP)
            .without(SIGTTIN)
            .without(SIGTTOU),
        SIGSTOP | SIGTSTP | SIGTTIN | SIGTTOU => pending.without(SIGCONT),
        _ => pending,
    }
}
