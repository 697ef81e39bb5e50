//! Which words of a call the filters of a chain load.
ghost use Rattle.std.specs.Prelude.{◌≡◌, ◌%◌, ◌<◌, IfSome};
ghost use Rattle.sk_survey.specs.ByArchitecture.{chain_loads, free_place, program_loads};
ghost use Rattle.sk_survey.specs.Looks.{looks_at_architecture, program_looks};

use crate::change::{loads_architecture, loads_word};
use sk_filter::{Chain, Checked};

/// The words of a record behind its number and its architecture.
const WORDS_BEHIND: [u32; 14] = [8, 12, 16, 20, 24, 28, 32, 36, 40, 44, 48, 52, 56, 60];

/// Whether some filter of the chain loads the architecture of the call.
pub fn looks_at_architecture(chain: &Chain) -> bool
    ensures looks { result ≡ looks_at_architecture chain.now }
{
    chain.programs().any(|program| program_looks(program))
}

fn program_looks(program: &Checked) -> bool
    ensures looks { result ≡ program_looks program.now }
{
    program.insns().iter().any(|insn| loads_architecture(*insn))
}

/// The first word behind the architecture that no filter of the chain loads.
pub(crate) fn free_place(chain: &Chain) -> Option<u32>
    ensures place { result ≡ free_place chain.now }
{
    WORDS_BEHIND
        .iter()
        .copied()
        .find(|place| !chain_loads(chain, *place))
}

/// Whether some filter of the chain loads the word at a place.
pub(crate) fn chain_loads(chain: &Chain, place: u32) -> bool
    ensures loads { result ≡ chain_loads place chain.now }
{
    chain
        .programs()
        .any(|program| program_loads(program, place))
}

fn program_loads(program: &Checked, place: u32) -> bool
    ensures loads { result ≡ program_loads place program.now }
{
    program.insns().iter().any(|insn| loads_word(*insn, place))
}
