//! The user ids of a process, by the rules of setuid(2), setresuid(2), execve(2) and kill(2).
ghost use Rattle.std.specs.Prelude.{◌≡◌, ◌≢◌, Result, OnErr, IsTrue};
ghost use Rattle.std.specs.Result.{result_unwrap_or};
ghost use Rattle.sk_world.specs.Errno.{answer_of};
ghost use Rattle.sk_world.specs.Creds.{is_privileged, is_real_or_saved, is_own, may_take, chosen, may_signal, after_setuid, after_setresuid, after_exec, GainsNoId};

use crate::errno::Errno;

/// The number that names no user, `(uid_t) -1`.
pub const NO_ID: u32 = u32::MAX;

/// The user ids of a process, and whether execve(2) may still give it new ones.
#[derive(Clone, Copy, PartialEq, Eq, Debug)]
pub struct Creds {
    pub real: u32,
    pub effective: u32,
    pub saved: u32,
    /// Set by prctl(2), and never cleared.
    pub no_new_privs: bool,
}

impl Creds {
    /// Whether the process is one of the superuser's.
    pub fn is_privileged(&self) -> bool
        ensures { result ≡ is_privileged self.now }
    {
        self.effective == 0
    }

    /// Sets the effective id, and a privileged process's real and saved ids too: setuid(2).
    pub fn setuid(&mut self, id: u32) -> Result<(), Errno>
        ensures answer { result ≡ answer_of (after_setuid id self.old) }
        ensures ids { self.new ≡ result_unwrap_or (after_setuid id self.old) self.old }
        ensures refused { OnErr result (self.new ≡ self.old) }
        ensures unprivileged { self.old.effective ≢ 0 → GainsNoId self.old self.new }
    {
        if id == NO_ID {
            return Err(Errno::Einval);
        }
        if self.is_privileged() {
            self.real = id;
            self.saved = id;
        } else if !self.is_real_or_saved(id) {
            return Err(Errno::Eperm);
        }
        self.effective = id;
        Ok(())
    }

    /// Sets each of the three ids that is not `NO_ID`: setresuid(2).
    pub fn setresuid(&mut self, real: u32, effective: u32, saved: u32) -> Result<(), Errno>
        ensures answer { result ≡ answer_of (after_setresuid real effective saved self.old) }
        ensures ids { self.new ≡ result_unwrap_or (after_setresuid real effective saved self.old) self.old }
        ensures refused { OnErr result (self.new ≡ self.old) }
        ensures unprivileged { self.old.effective ≢ 0 → GainsNoId self.old self.new }
    {
        if !(self.may_take(real) && self.may_take(effective) && self.may_take(saved)) {
            return Err(Errno::Eperm);
        }
        self.real = chosen(real, self.real);
        self.effective = chosen(effective, self.effective);
        self.saved = chosen(saved, self.saved);
        Ok(())
    }

    /// Gives the process the ids that it has once it runs a program of this owner, whose
    /// set-user-ID bit is `setuid`: execve(2).
    pub fn after_exec(&mut self, owner: u32, setuid: bool)
        ensures ids { self.new ≡ after_exec owner setuid self.old }
        ensures bound { IsTrue self.old.no_new_privs → GainsNoId self.old self.new }
    {
        if setuid && !self.no_new_privs {
            self.effective = owner;
        }
        self.saved = self.effective;
    }

    /// Whether a process with these ids may send a process with the target's ids any signal:
    /// kill(2). What SIGCONT is allowed besides goes by sessions, and stands with kill.
    pub fn may_signal(&self, target: &Creds) -> bool
        ensures { result ≡ may_signal self.now target.now }
    {
        self.is_privileged()
            || target.is_real_or_saved(self.real)
            || target.is_real_or_saved(self.effective)
    }

    fn is_real_or_saved(&self, id: u32) -> bool
        ensures { result ≡ is_real_or_saved id self.now }
    {
        id == self.real || id == self.saved
    }

    fn may_take(&self, id: u32) -> bool
        ensures { result ≡ may_take id self.now }
    {
        id == NO_ID || self.is_privileged() || self.is_own(id)
    }

    fn is_own(&self, id: u32) -> bool
        ensures { result ≡ is_own id self.now }
    {
        self.is_real_or_saved(id) || id == self.effective
    }
}

fn chosen(id: u32, old: u32) -> u32
    ensures { result ≡ chosen id old }
{
    if id == NO_ID { old } else { id }
}
