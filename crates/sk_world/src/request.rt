//! What wait4(2) can be asked, and what it can find.
ghost use Rattle.std.specs.Prelude.{⊤, ◌≡◌, ◌^◌, [], ◌∷◌, codes};

use bitflags::{Flag, Flags, bitflag_items};

/// The options of wait4(2).
#[derive(Clone, Copy, PartialEq, Eq, Debug)]
pub struct WaitOptions(u32);

bitflag_items! {
    impl WaitOptions: u32 {
        const WNOHANG = 1;
        const WUNTRACED = 2;
        const WCONTINUED = 8;
    }
}

impl Flags for WaitOptions {
    type Bits = u32;

    ghost exact = { ⊤ };

    ghost table = { (codes "WNOHANG", 1) ∷ (codes "WUNTRACED", 2) ∷ (codes "WCONTINUED", 8) ∷ [] };

    ghost set_of = { λ options. options.0 };

    fn flags<'a>() -> &'a [Flag<WaitOptions>] {
        WaitOptions::FLAGS
    }

    fn bits(&self) -> u32 {
        self.0
    }

    fn from_bits_retain(bits: u32) -> WaitOptions {
        WaitOptions(bits)
    }
}

/// Which children a process waits for: wait4(2).
#[derive(Clone, Copy, PartialEq, Eq, Debug)]
pub enum Who {
    /// The child with this pid.
    Child(u32),
    Any,
    /// The children in this group.
    Group(u32),
}

/// What a process asks by wait4(2).
#[derive(Clone, Copy, PartialEq, Eq, Debug)]
pub struct Request {
    pub who: Who,
    pub options: WaitOptions,
}

/// What a wait4(2) finds.
#[derive(Clone, Copy, PartialEq, Eq, Debug)]
pub enum Poll {
    /// A child that has something to tell, and its status.
    Told { pid: u32, status: u32 },
    /// No child matches the request.
    NoMatch,
    /// Children match, and none has anything to tell.
    NotReady,
}
