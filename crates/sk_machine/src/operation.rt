//! The options of prctl(2) and the operations of seccomp(2), by their numbers.
ghost use Rattle.std.specs.Prelude.{◌≡◌};
ghost use Rattle.sk_machine.specs.Arguments.{prctl_option_of, seccomp_operation_of};

/// What prctl(2) is asked, by the names in the manual without their PR.
#[derive(Clone, Copy, PartialEq, Eq, Debug)]
pub enum PrctlOption {
    SetNoNewPrivs,
    GetNoNewPrivs,
    SetSeccomp,
    GetSeccomp,
    SetChildSubreaper,
    GetChildSubreaper,
}

impl PrctlOption {
    /// The option of a number, if the kernel has it.
    pub fn of(option: u32) -> Option<PrctlOption>
        ensures { result ≡ prctl_option_of option }
    {
        match option {
            21 => Some(PrctlOption::GetSeccomp),
            22 => Some(PrctlOption::SetSeccomp),
            36 => Some(PrctlOption::SetChildSubreaper),
            37 => Some(PrctlOption::GetChildSubreaper),
            38 => Some(PrctlOption::SetNoNewPrivs),
            39 => Some(PrctlOption::GetNoNewPrivs),
            _ => None,
        }
    }
}

/// What seccomp(2) is asked, by the names in the manual without their SECCOMP.
#[derive(Clone, Copy, PartialEq, Eq, Debug)]
pub enum SeccompOperation {
    SetModeFilter,
    GetActionAvail,
}

impl SeccompOperation {
    /// The operation of a number, if the kernel has it.
    pub fn of(operation: u32) -> Option<SeccompOperation>
        ensures { result ≡ seccomp_operation_of operation }
    {
        match operation {
            1 => Some(SeccompOperation::SetModeFilter),
            2 => Some(SeccompOperation::GetActionAvail),
            _ => None,
        }
    }
}
