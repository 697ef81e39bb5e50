//! The name of a call in the text of a line.
ghost use Rattle.std.specs.Prelude.{◌≡◌, ◌≤◌, ◌+◌, ◌++◌, codes};
ghost use Rattle.arrayvec.specs.ArrayString.{array_string_len};
ghost use Rattle.sk_names.specs.Syscalls.{name_of};
ghost use Rattle.sk_run.specs.Text.{call_name};

use sk_names::Syscall;
use sk_text::{Line, push_number};

/// The word `call` and the name of this call, with a space behind each.
#[tactic(auto, unfolding(crate::specs::Text::call_name))]
pub(crate) fn push_call(text: &mut Line, nr: u32)
    requires room { array_string_len text.old + 20 ≤ 128 }
    ensures text { text.new.bytes ≡ text.old.bytes ++ (codes "call " ++ (call_name nr ++ codes " ")) }
    ensures growth { array_string_len text.new ≤ array_string_len text.old + 20 }
{
    match Syscall::of(nr) {
        Some(call) => push_named(text, call),
        None => {
            text.push_str("call ");
            push_number(text, nr);
            text.push_str(" ");
        }
    }
}

// One text of a known length is pushed by two or three instructions, where three of them would be copied.
fn push_named(text: &mut Line, call: Syscall)
    requires room { array_string_len text.old + 20 ≤ 128 }
    ensures text { text.new.bytes ≡ text.old.bytes ++ (codes "call " ++ (name_of call ++ codes " ")) }
    ensures growth { array_string_len text.new ≤ array_string_len text.old + 20 }
{
    match call {
        Syscall::RtSigaction => text.push_str("call rt_sigaction "),
        Syscall::RtSigprocmask => text.push_str("call rt_sigprocmask "),
        Syscall::RtSigreturn => text.push_str("call rt_sigreturn "),
        Syscall::SchedYield => text.push_str("call sched_yield "),
        Syscall::Pause => text.push_str("call pause "),
        Syscall::Getpid => text.push_str("call getpid "),
        Syscall::Fork => text.push_str("call fork "),
        Syscall::Execve => text.push_str("call execve "),
        Syscall::Exit => text.push_str("call exit "),
        Syscall::Wait4 => text.push_str("call wait4 "),
        Syscall::Kill => text.push_str("call kill "),
        Syscall::Getuid => text.push_str("call getuid "),
        Syscall::Setuid => text.push_str("call setuid "),
        Syscall::Geteuid => text.push_str("call geteuid "),
        Syscall::Setpgid => text.push_str("call setpgid "),
        Syscall::Getppid => text.push_str("call getppid "),
        Syscall::Getpgrp => text.push_str("call getpgrp "),
        Syscall::Setsid => text.push_str("call setsid "),
        Syscall::Setresuid => text.push_str("call setresuid "),
        Syscall::Getresuid => text.push_str("call getresuid "),
        Syscall::Getpgid => text.push_str("call getpgid "),
        Syscall::Getsid => text.push_str("call getsid "),
        Syscall::RtSigpending => text.push_str("call rt_sigpending "),
        Syscall::Prctl => text.push_str("call prctl "),
        Syscall::ExitGroup => text.push_str("call exit_group "),
        Syscall::Seccomp => text.push_str("call seccomp "),
    }
}
