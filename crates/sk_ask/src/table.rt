//! The table of words: of each its line, with its options and what stands before its FILEs.
ghost use Rattle.std.specs.Prelude.{◌≡◌, ◌≤◌, length, map, string_bytes};
ghost use Rattle.sk_ask.specs.Counts.{CountsReads};
ghost use Rattle.sk_ask.specs.Answering.{AnswersThere, AnswersQuestion};
ghost use Rattle.sk_ask.specs.Asking.{manner_of, wanted};
ghost use Rattle.sk_ask.specs.Asked.{question_of};
ghost use Rattle.sk_ask.specs.Endings.{ending_of};
ghost use Rattle.sk_ask.specs.Troubles.{OfFiles};

use crate::allow::allow_answer;
use crate::analysis::Analysis;
use crate::answer::Answer;
use crate::arches::Arches;
use crate::calls::Calls;
use crate::check::check_answer;
use crate::context::context_of;
use crate::diff::diff_answer;
use crate::expect::expect_answer;
use crate::filter::Filter;
use crate::lint::lint_answer;
use crate::manner::manner_of;
use crate::on::{On, architecture_of, asked_calls, naming_asked};
use crate::page::{comparison_answer, page_answer};
use crate::printing::printing_asked;
use crate::replay::replay_answer;
use crate::show::Show;
use crate::when::When;
use crate::why::why_answer;
use crate::word::Word;
use crate::words::Asked;
use crate::{Reader, Shelf, Trouble};
use std::alloc::Global;

/// Answers what the words ask.
pub fn asked_answer<S: Shelf, A: Analysis>(
    alloc: Global,
    asked: &Asked,
    shelf: &S,
    analysis: &A,
    reads: &mut u64,
) -> Result<Answer, Trouble>
    requires named { length (wanted asked.now.word) ≤ length asked.now.names.items }
    ensures told { AnswersThere (S.held shelf.now) (A.may_spend analysis.now) (question_of asked.now) (ending_of result) }
    ensures counted { CountsReads result reads.old reads.new }
{
    let context = context_of(asked);
    let architecture = architecture_of(asked.arch);
    let calls = asked_calls(alloc, architecture, &asked.calls)?;
    let reader = Reader {
        shelf,
        context: &context,
        manner: manner_of(asked),
    };
    let on = On {
        analysis,
        architecture,
        naming: naming_asked(asked.numbers),
        printing: printing_asked(asked.json),
    };
    by_word(
        alloc,
        asked,
        asked.word,
        &asked.names,
        &calls,
        &reader,
        on,
        reads,
    )
}

fn by_word<S: Shelf, A: Analysis>(
    alloc: Global,
    asked: &Asked,
    word: Word,
    names: &[String],
    calls: &[u32],
    reader: &Reader<'_, S>,
    on: On<'_, A>,
    reads: &mut u64,
) -> Result<Answer, Trouble>
    requires named { length (wanted word) ≤ length names.now }
    requires manner { reader.now.manner ≡ manner_of (question_of asked.now) }
    ensures told { AnswersQuestion (S.held reader.now.shelf.now) (A.may_spend on.entry.analysis.now) (question_of asked.now) reader.now.context.now
        (OfFiles reader.now.manner (S.held reader.now.shelf.now) reader.now.context.now)
        on.entry.architecture calls.now on.entry.naming on.entry.printing word (map string_bytes names.now) (ending_of result) }
    ensures counted { CountsReads result reads.old reads.new }
{
    let (architecture, printing) = (on.architecture, on.printing);
    let only = asked.only.as_slice();
    match word {
        Word::Calls { examples } => {
            let calls = Calls {
                on,
                calls,
                only,
                examples,
            };
            reader.answer(alloc, reads, names, calls)
        }
        Word::Filter { target, smaller } => {
            let analysis = on.analysis;
            let filter = Filter {
                analysis,
                target,
                smaller,
            };
            reader.answer(alloc, reads, names, filter)
        }
        Word::When { dot } => {
            let when = When {
                on,
                calls,
                only,
                dot,
            };
            reader.answer(alloc, reads, names, when)
        }
        Word::Diff { stricter } => diff_answer(alloc, names, reader, on, stricter, reads),
        Word::Expect => expect_answer(alloc, asked, names, reader.shelf, on.analysis, reads),
        Word::Lint { all } => lint_answer(alloc, names, reader, on, all, reads),
        Word::Replay { since } => replay_answer(alloc, names, reader, on, since, reads),
        Word::Allow(asks) => allow_answer(alloc, names, reader.shelf, on, asks, calls, reads),
        Word::Why => why_answer(alloc, names, reader, architecture, printing, reads),
        Word::Show => reader.answer(alloc, reads, names, Show { architecture }),
        Word::Arches => reader.answer(alloc, reads, names, Arches { printing }),
        Word::Check => check_answer(alloc, names, reader, reads),
        Word::Page { compares: false } => page_answer(alloc, names, reader, on, reads),
        Word::Page { compares: true } => comparison_answer(alloc, names, reader, on, reads),
    }
}
