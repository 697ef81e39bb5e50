//! `ask arches`: what filters answer to the calls of each architecture.
ghost use Rattle.std.specs.Prelude.{◌≡◌, IfOk};
ghost use Rattle.sk_ask.specs.Arches.{arches_printed};

use crate::answer::{Answer, Tells};
use crate::printing::Printing;
use crate::{Filters, Trouble};
use sk_document::arches_document;
use sk_survey::{Told, arches_text};
use std::alloc::{AllocError, Global};

/// `ask arches`.
#[derive(Drop)]
pub struct Arches {
    pub printing: Printing,
}

impl Tells for Arches {
    ghost use Rattle.sk_ask.specs.Arches.{TellsArches};

    ghost tells = { λ it read ending. TellsArches it.printing read.chain read.notes ending };

    fn told(self, alloc: Global, filters: Filters) -> Result<Answer, Trouble> {
        let told = sk_survey::arches(alloc, &filters.chain)?;
        Ok(Answer {
            text: printed(alloc, self.printing, &told)?,
            notes: filters.notes,
            denies: told.warns(),
        })
    }
}

fn printed(alloc: Global, printing: Printing, told: &Told) -> Result<Vec<u8>, AllocError>
    ensures printed { IfOk result (λ text. text.items ≡ arches_printed printing told.now) }
{
    match printing {
        Printing::Text => Ok(arches_text(alloc, told)?.into_bytes()),
        Printing::Document => arches_document(alloc, told),
    }
}
