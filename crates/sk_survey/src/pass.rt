//! One pass over a program, which follows all paths of all calls with a number of a range.
ghost use Rattle.std.specs.Prelude.{◌≡◌, ◌≢◌, ℕ, ◌+◌, ◌≤◌, ◌<◌, ◌⊎◌, length, slice_get, Some, IfOk, IsOk};
ghost use Rattle.sk_insn.specs.declared.record.Record.{Record};
ghost use Rattle.sk_filter.specs.Fits.{AreInside};
ghost use Rattle.sk_filter.specs.Paths.{GoesTo};
ghost use Rattle.sk_filter.specs.Meaning.{State, Effect, Ends};
ghost use Rattle.sk_insn.specs.declared.insn.Insn.{Insn};
ghost use Rattle.sk_survey.specs.declared.known.Knowledge.{Knowledge};
ghost use Rattle.sk_survey.specs.Ends.{OnlyPossible};
ghost use Rattle.sk_survey.specs.Following.{DescribesState, DescribedAt, JoinsAt, Leads, Spreads, TellsEnd, IsUnknown, led};
ghost use Rattle.sk_survey.specs.Settling.{Settles, TellsOne};
ghost use Rattle.sk_survey.specs.Answers.{answers_of, AnswersAmong, IsAmong, AreRising};

use crate::answers::Answers;
use crate::follow::Next;
use crate::known::{Knowledge, Known};
use sk_filter::Checked;
use sk_insn::Insn;
use std::alloc::{AllocError, Global};

/// What the program answers. Control only goes forwards, so one pass over the places is enough: when a place is come
/// to, its slot holds what each path to it knows. The slots are left empty, unless memory is refused.
pub(crate) fn program_answers(
    alloc: Global,
    slots: &mut [Option<Knowledge>],
    program: &Checked,
    first: u32,
    last: u32,
) -> Result<Answers, AllocError>
    requires slots { length slots.old ≡ 4096 }
    requires empty { (place : ℕ) → IsUnknown slots.old place }
    requires range { first ≤ last }
    ensures among { IfOk result (λ answers. AnswersAmong program.now first last (answers_of answers)) }
    ensures rising { IfOk result (λ answers. AreRising (answers_of answers)) }
    ensures only { IfOk result (λ answers. OnlyPossible program.now first last (answers_of answers)) }
    ensures settled { Settles program.now first last → IfOk result (λ answers. TellsOne (answers_of answers)) }
    ensures empty { IsOk result → (place : ℕ) → IsUnknown slots.new place }
{
    let mut answers = Answers::Among(Vec::new(alloc));
    slots[0] = Some(Knowledge::at_start());
    for (place, insn) in program.insns().iter().enumerate() {
        if let Some(mut knowledge) = slots[place] {
            slots[place] = None;
            let next = knowledge.follow(insn, first, last);
            spread(slots, place, insn, next, &knowledge);
            add_end(&mut answers, next)?;
        }
    }
    Ok(answers)
}

/// Empties the slots.
pub(crate) fn clear(slots: &mut [Option<Knowledge>])
    ensures empty { (place : ℕ) → IsUnknown slots.new place }
{
    slots.fill(None);
}

// Adds the value with which the filter ends where an instruction leads to an end.
fn add_end(answers: &mut Answers, next: Next) -> Result<(), AllocError>
    requires rising { AreRising (answers_of answers.old) }
    ensures rising { AreRising (answers_of answers.new) }
    ensures kept { (value : ℕ) → IsAmong value (answers_of answers.old) → IsAmong value (answers_of answers.new) }
    ensures added { IsOk result → (insn : Insn) (after : Knowledge) (call : Record) (value : ℕ)
        → Leads next insn after call (Ends value) → IsAmong value (answers_of answers.new) }
    ensures only { (value : ℕ) → IsAmong value (answers_of answers.new)
        → IsAmong value (answers_of answers.old) ⊎ TellsEnd next value }
{
    match next {
        Next::End(known) => answers.add(known),
        Next::FollowingOrZero => answers.add(Known::Is(0)),
        Next::Skip(_) | Next::Either(_) => Ok(()),
    }
}

// Hands what is known after an instruction on to the places where control can go.
fn spread(
    slots: &mut [Option<Knowledge>],
    place: usize,
    insn: &Insn,
    next: Next,
    knowledge: &Knowledge,
)
    requires slots { length slots.old ≡ 4096 }
    requires place { place < 4096 }
    requires inside { AreInside 4096 (led place next insn.now) }
    ensures kept { (q : ℕ) (call : Record) (s : State) → DescribedAt slots.old q call s
        → DescribedAt slots.new q call s }
    ensures spread { (call : Record) (e : Effect) → Leads next insn.now knowledge.now call e
        → Spreads place slots.new call e }
    ensures others { (q : ℕ) → (GoesTo q (led place next insn.now) → ⊥)
        → slice_get slots.new q ≡ slice_get slots.old q }
    ensures alone { (skip : ℕ) → next ≡ Next.Skip skip → IsUnknown slots.old (place + 1 + skip)
        → slice_get slots.new (place + 1 + skip) ≡ Some (Some knowledge.now) }
    ensures joins { (skip : ℕ) → next ≡ Next.Skip skip
        → JoinsAt (slice_get slots.old (place + 1 + skip)) knowledge.now (slice_get slots.new (place + 1 + skip)) }
{
    match next {
        Next::Skip(skip) => join_at(slots, place + 1 + skip as usize, knowledge),
        Next::Either(a) => {
            join_at(slots, place + 1 + insn.jf as usize, knowledge);
            join_where_it_holds(slots, place, insn, a, knowledge);
        }
        Next::End(_) => {}
        Next::FollowingOrZero => join_at(slots, place + 1, knowledge),
    }
}

// Joins what is known after a conditional jump whose test holds to the place where it goes.
fn join_where_it_holds(
    slots: &mut [Option<Knowledge>],
    place: usize,
    insn: &Insn,
    a: Known,
    knowledge: &Knowledge,
)
    requires slots { length slots.old ≡ 4096 }
    requires place { place + 1 + insn.now.jt < 4096 }
    ensures kept { (q : ℕ) (call : Record) (s : State) → DescribedAt slots.old q call s
        → DescribedAt slots.new q call s }
    ensures joined { (call : Record) (s : State) → DescribesState (record knowledge.now { a = a }) call s
        → DescribedAt slots.new (place + 1 + insn.now.jt) call s }
    ensures others { (q : ℕ) → q ≢ place + 1 + insn.now.jt → slice_get slots.new q ≡ slice_get slots.old q }
{
    join_at(
        slots,
        place + 1 + insn.jt as usize,
        &Knowledge { a, ..*knowledge },
    );
}

// Joins what is known on one more path to a place.
fn join_at(slots: &mut [Option<Knowledge>], place: usize, knowledge: &Knowledge)
    requires slots { length slots.old ≡ 4096 }
    requires place { place < 4096 }
    ensures kept { (q : ℕ) (call : Record) (s : State) → DescribedAt slots.old q call s
        → DescribedAt slots.new q call s }
    ensures joined { (call : Record) (s : State) → DescribesState knowledge.now call s
        → DescribedAt slots.new place call s }
    ensures others { (q : ℕ) → q ≢ place → slice_get slots.new q ≡ slice_get slots.old q }
    ensures alone { IsUnknown slots.old place → slice_get slots.new place ≡ Some (Some knowledge.now) }
    ensures joins { JoinsAt (slice_get slots.old place) knowledge.now (slice_get slots.new place) }
{
    match &mut slots[place] {
        Some(known) => known.join(knowledge),
        slot => *slot = Some(*knowledge),
    }
}
