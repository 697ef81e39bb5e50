//! `ask show`: the listing of one filter for people.
use crate::answer::{Answer, Tells};
use crate::{Filters, Trouble, of_word};
use sk_names::Architecture;
use std::alloc::Global;

/// `ask show`, with the names that calls have on an architecture.
#[derive(Drop)]
pub struct Show {
    pub architecture: Architecture,
}

impl Tells for Show {
    ghost use Rattle.sk_ask.specs.Shows.{Shows};

    ghost tells = { λ it read ending. Shows it.architecture read.chain read.notes ending };

    fn told(self, alloc: Global, filters: Filters) -> Result<Answer, Trouble> {
        let mut programs = filters.chain.programs();
        match (programs.next(), programs.next()) {
            (Some(program), None) => Ok(Answer {
                text: sk_show::show(alloc, self.architecture, program)?.into_bytes(),
                notes: filters.notes,
                denies: false,
            }),
            _ => {
                let what = "show: the FILEs hold several filters: expected one";
                Err(Trouble::Refused(of_word(alloc, what, b"")?))
            }
        }
    }
}
