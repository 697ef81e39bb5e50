//! The actions of seccomp(2), by the values of filters and by their words.
ghost use Rattle.std.specs.Prelude.{◌≡◌};
ghost use Rattle.sk_insn.specs.Actions.{action_of, action_name, action_named, value_of, performs};

/// What becomes of a call: the action that a filter's value asks for, by seccomp(2).
#[derive(Clone, Copy, Debug, PartialEq, Eq)]
pub enum Action {
    KillProcess,
    KillThread,
    Trap,
    Errno,
    UserNotif,
    Trace,
    Log,
    Allow,
    /// None of the eight. The process is killed.
    Unknown,
}

/// The value that lets a call through, with data 0.
pub const ALLOW: u32 = 0x7fff_0000;

const ACTIONS: [Action; 8] = [
    Action::KillProcess,
    Action::KillThread,
    Action::Trap,
    Action::Errno,
    Action::UserNotif,
    Action::Trace,
    Action::Log,
    Action::Allow,
];

impl Action {
    /// The action that a value asks for, in its high 16 bits.
    #[tactic(auto, unfolding(crate::specs::Actions::action_of))]
    pub fn of(value: u32) -> Action
        ensures action { result ≡ action_of value }
    {
        match value - value % 0x1_0000 {
            0x8000_0000 => Action::KillProcess,
            0x0000_0000 => Action::KillThread,
            0x0003_0000 => Action::Trap,
            0x0005_0000 => Action::Errno,
            0x7fc0_0000 => Action::UserNotif,
            0x7ff0_0000 => Action::Trace,
            0x7ffc_0000 => Action::Log,
            0x7fff_0000 => Action::Allow,
            _ => Action::Unknown,
        }
    }

    /// Its value with data 0. An unknown action stands for many values, and has none of its own.
    pub fn value(self) -> Option<u32>
        ensures value { result ≡ value_of self }
    {
        match self {
            Action::KillProcess => Some(0x8000_0000),
            Action::KillThread => Some(0x0000_0000),
            Action::Trap => Some(0x0003_0000),
            Action::Errno => Some(0x0005_0000),
            Action::UserNotif => Some(0x7fc0_0000),
            Action::Trace => Some(0x7ff0_0000),
            Action::Log => Some(0x7ffc_0000),
            Action::Allow => Some(ALLOW),
            Action::Unknown => None,
        }
    }

    /// Its word in the assembler and in reports.
    pub fn name(self) -> &'static str
        ensures name { result.now ≡ action_name self }
    {
        match self {
            Action::KillProcess => "kill_process",
            Action::KillThread => "kill_thread",
            Action::Trap => "trap",
            Action::Errno => "errno",
            Action::UserNotif => "user_notif",
            Action::Trace => "trace",
            Action::Log => "log",
            Action::Allow => "allow",
            Action::Unknown => "unknown",
        }
    }

    /// The named action with this word; `unknown` names none.
    pub fn named(name: &[u8]) -> Option<Action>
        ensures action { result ≡ action_named name.now }
    {
        ACTIONS
            .iter()
            .copied()
            .find(|action| action.name().as_bytes() == name)
    }

    /// Whether the call is performed.
    pub fn performs(&self) -> bool
        ensures performs { result ≡ performs self.now }
    {
        matches!(self, Action::Log | Action::Allow)
    }
}
