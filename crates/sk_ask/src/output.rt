//! An answer goes to one writer, and all else to the other.
ghost use Rattle.std.specs.Prelude.{◌≡◌, ◌≤◌};
ghost use Rattle.sk_ask.specs.Endings.{ending_of, written, Answers, Complains, Leaves, Notes};

use crate::Trouble;
use crate::answer::Answer;
use sk_text::{Sink, WriteFault, send};

/// The exit status where there is no answer.
const TROUBLE: u8 = 2;

/// Puts out what the program came to, and gives its exit status.
pub fn put<W: Sink, E: Sink>(
    outcome: &Result<Answer, Trouble>,
    out: &mut W,
    complaints: &mut E,
) -> u8
    ensures left { Leaves (ending_of outcome.now) result
        (written (W.contents out.old) (W.failed out.old)) (written (W.contents out.new) (W.failed out.new))
        (written (E.contents complaints.old) (E.failed complaints.old)) (written (E.contents complaints.new) (E.failed complaints.new)) }
    ensures status { result ≤ 2 }
{
    match outcome {
        Ok(answer) => put_answer(answer, out, complaints),
        Err(Trouble::Refused(line) | Trouble::Reading(line)) => complain(complaints, line),
        Err(Trouble::Memory) => complain(complaints, b"ask: out of memory\n"),
    }
}

fn put_answer<W: Sink, E: Sink>(answer: &Answer, out: &mut W, complaints: &mut E) -> u8
    ensures left { Answers answer.now.notes.items answer.now.text.items answer.now.denies result
        (written (W.contents out.old) (W.failed out.old)) (written (W.contents out.new) (W.failed out.new))
        (written (E.contents complaints.old) (E.failed complaints.old)) (written (E.contents complaints.new) (E.failed complaints.new)) }
    ensures status { result ≤ 2 }
{
    note(complaints, &answer.notes);
    let text = answer.text.as_slice();
    match send(out, text) {
        Ok(()) => u8::from(answer.denies),
        Err(WriteFault) => complain(complaints, b"ask: writing failed\n"),
    }
}

// Writes what is told beside an answer. Where that fails the answer is the same.
fn note<E: Sink>(complaints: &mut E, notes: &[u8])
    ensures noted { Notes notes.now
        (written (E.contents complaints.old) (E.failed complaints.old)) (written (E.contents complaints.new) (E.failed complaints.new)) }
{
    if notes.is_empty() {
        return;
    }
    match send(complaints, notes) {
        Ok(()) => (),
        Err(WriteFault) => (),
    }
}

/// Writes a line that says what is wrong, once. Where that fails too, nothing more can be said.
pub fn complain<E: Sink>(complaints: &mut E, line: &[u8]) -> u8
    ensures told { Complains line.now result
        (written (E.contents complaints.old) (E.failed complaints.old)) (written (E.contents complaints.new) (E.failed complaints.new)) }
    ensures status { result ≡ 2 }
{
    match send(complaints, line) {
        Ok(()) => TROUBLE,
        Err(WriteFault) => TROUBLE,
    }
}
