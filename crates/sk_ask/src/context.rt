//! Where the profiles among the files are to hold.
ghost use Rattle.std.specs.Prelude.{◌≡◌};
ghost use Rattle.sk_ask.specs.Asked.{question_of};
ghost use Rattle.sk_ask.specs.Contexts.{IsContextOf, machine_there};

use crate::on::architecture_of;
use crate::words::Asked;
use sk_names::Architecture;
use sk_profile_json::{Context, Kernel, Machine};

/// The kernel where none is named: the newest whose calls have names here.
const NEWEST: Kernel = Kernel {
    major: 6,
    minor: 12,
};

/// Where profiles are to hold.
pub fn context_of<'a>(asked: &'a Asked) -> Context<'a>
    ensures context { IsContextOf (question_of asked.now) result }
{
    context_on(asked, asked.arch)
}

/// Where they are to hold, if this architecture is named in place of the one that is.
pub fn context_on<'a>(asked: &'a Asked, arch: Option<Architecture>) -> Context<'a>
    ensures context { IsContextOf (record (question_of asked.now) { arch = arch }) result }
{
    Context {
        capabilities: &asked.caps,
        kernel: asked.kernel.unwrap_or(NEWEST),
        runc: asked.runc,
        machine: machine_there(asked.machine, arch),
        native: asked.native,
    }
}

fn machine_there(machine: Option<Machine>, arch: Option<Architecture>) -> Option<Machine>
    ensures machine { result ≡ machine_there machine arch }
{
    match machine {
        Some(machine) => Some(machine),
        None => Machine::of(architecture_of(arch)),
    }
}
