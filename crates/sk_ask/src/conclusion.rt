//! What is answered with what was found of all calls.
ghost use Rattle.std.specs.Prelude.{◌≡◌, ℕ, IfOk};
ghost use Rattle.sk_ask.specs.Concluding.{EndsAs, printing_for, undecided_text};
ghost use Rattle.sk_ask.specs.Counts.{CountsReads};
ghost use Rattle.sk_ask.specs.Endings.{ending_of};

use crate::Trouble;
use crate::answer::Answer;
use crate::printing::Printing;
use sk_when::Finding;
use std::alloc::{AllocError, Global};

/// How what was found is printed: where some calls are undecided by a text, since a failure is no document.
pub fn printing_for(finding: Finding, printing: Printing) -> Printing
    ensures printing { result ≡ printing_for finding printing }
{
    match finding {
        Finding::Undecided => Printing::Text,
        Finding::Holds | Finding::Fails => printing,
    }
}

/// The answer with this text and these notes; where some calls are undecided there is none, and this is what could not be done.
pub fn concluded(
    alloc: Global,
    undone: &str,
    finding: Finding,
    text: Vec<u8>,
    notes: Vec<u8>,
) -> Result<Answer, Trouble>
    ensures told { EndsAs undone.now finding notes.items text.items (ending_of result) }
    ensures unread { (reads : ℕ) → CountsReads result reads reads }
{
    let denies = match finding {
        Finding::Holds => false,
        Finding::Fails => true,
        Finding::Undecided => return Err(Trouble::Refused(undecided(alloc, undone, &text)?)),
    };
    Ok(Answer {
        text,
        notes,
        denies,
    })
}

fn undecided(alloc: Global, undone: &str, lines: &[u8]) -> Result<Vec<u8>, AllocError>
    ensures text { IfOk result (λ text. text.items ≡ undecided_text undone.now lines.now) }
{
    let mut text = Vec::new(alloc);
    text.extend_from_slice(b"ask: ")?;
    text.extend_from_slice(undone.as_bytes())?;
    text.extend_from_slice(b" on all calls:\n")?;
    text.extend_from_slice(lines)?;
    Ok(text)
}
