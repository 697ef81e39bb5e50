//! The calls that a container's runtime or a service manager makes itself, under the filter that it attaches to a program.
ghost use Rattle.std.specs.Prelude.{◌≡◌};
ghost use Rattle.sk_ask.specs.Runtimes.{runtime_log, runtime_named};

use sk_text::is_same;

/// What starts a program under a filter, in a container or as a service.
#[derive(Clone, Copy, Debug, PartialEq, Eq)]
pub enum Runtime {
    /// runc, which docker takes, and podman may take.
    Runc,
    /// crun, which podman takes.
    Crun,
    /// bubblewrap.
    Bwrap,
    /// systemd, with the filter of a service.
    Systemd,
}

/// Those of runc 1.1.5, of the thread that has the filter.
const RUNC_LOG: &str = "capget() = 0
capset() = 0
chdir() = 0
close() = 0
epoll_ctl() = 0
execve() = 0
faccessat2() = 0
fchown() = 0
fcntl() = 0
fstat() = 0
fstatfs() = 0
futex() = 0
getcwd() = 0
getdents64() = 0
getpid() = 0
getppid() = 0
newfstatat() = 0
openat() = 0
prctl() = 0
read() = 0
rt_sigreturn() = 0
setgid() = 0
setgroups() = 0
setuid() = 0
write() = 0
";

/// Those of crun 1.8.1.
const CRUN_LOG: &str = "capset() = 0
close() = 0
execve() = 0
fchown() = 0
ioctl() = 0
openat() = 0
prctl() = 0
pselect6() = 0
read() = 0
rt_sigaction() = 0
rt_sigprocmask() = 0
setgroups() = 0
setresgid() = 0
setresuid() = 0
statx() = 0
umask() = 0
write() = 0
";

/// Those of bubblewrap 0.8.0, and of its process 1, which has the filter too.
const BWRAP_LOG: &str = "close() = 0
execve() = 0
exit_group() = 0
prctl() = 0
wait4() = 0
write() = 0
";

/// Those of systemd 252.
const SYSTEMD_LOG: &str = "execve() = 0
seccomp() = 0
write() = 0
";

impl Runtime {
    /// The one with this name.
    pub fn named(name: &[u8]) -> Option<Runtime>
        ensures runtime { result ≡ runtime_named name.now }
    {
        if is_same(name, b"docker") || is_same(name, b"runc") {
            Some(Runtime::Runc)
        } else if is_same(name, b"crun") {
            Some(Runtime::Crun)
        } else if is_same(name, b"bwrap") {
            Some(Runtime::Bwrap)
        } else if is_same(name, b"systemd") {
            Some(Runtime::Systemd)
        } else {
            None
        }
    }

    /// The calls that it makes between the attaching of the filter and the program, as a log. `tools/runtime_calls` measures
    /// them.
    pub fn log(self) -> &'static str
        ensures log { result.now ≡ runtime_log self }
    {
        match self {
            Runtime::Runc => RUNC_LOG,
            Runtime::Crun => CRUN_LOG,
            Runtime::Bwrap => BWRAP_LOG,
            Runtime::Systemd => SYSTEMD_LOG,
        }
    }
}
