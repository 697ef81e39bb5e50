//! `ask expect`: where the verdicts of filters are not as a policy expects.
ghost use Rattle.std.specs.Prelude.{◌≡◌, ◌≤◌, IfOk, length, map, string_bytes};
ghost use Rattle.sk_ask.specs.Asked.{question_of};
ghost use Rattle.sk_ask.specs.Counts.{CountsReads};
ghost use Rattle.sk_ask.specs.Endings.{ending_of};
ghost use Rattle.sk_ask.specs.Expects.{IsExpectOf, OfDemands, asked_by, others_note};
ghost use Rattle.sk_ask.specs.Troubles.{OfFirst};

use crate::analysis::Analysis;
use crate::answer::{Answer, Tells};
use crate::comparison::compared;
use crate::complete::{is_turned, turned_line};
use crate::context::context_on;
use crate::demands::{Demands, demands_in};
use crate::form::unmarked;
use crate::manner::Manner;
use crate::on::{On, architecture_of, naming_asked};
use crate::printing::printing_asked;
use crate::word::Word;
use crate::words::{Asked, first_name};
use crate::{Filters, Reader, Shelf, Trouble, about, content};
use sk_filter::Chain;
use sk_names::Architecture;
use sk_text::MOST_BYTES;
use sk_when::Relation;
use std::alloc::{AllocError, Global};

/// What could not be done where some calls are undecided.
const NOT_COMPARED: &str = "expect: the filters could not be compared";

/// `ask expect`, behind a policy that demands what this chain answers, and of which this is noted.
#[derive(Drop)]
pub struct Expect<'a, A> {
    pub on: On<'a, A>,
    pub chain: Chain,
    pub notes: Vec<u8>,
}

impl<A: Analysis> Tells for Expect<'_, A> {
    ghost use Rattle.std.specs.Prelude.{◌++◌};
    ghost use Rattle.sk_ask.specs.Expects.{IsExpect};

    ghost tells = { λ it read ending.
        IsExpect (A.may_spend it.on.analysis.now) it.on.naming it.on.printing it.on.architecture it.chain read.chain (it.notes.items ++ read.notes) ending };

    fn told(self, alloc: Global, filters: Filters) -> Result<Answer, Trouble> {
        let Expect {
            on,
            chain: demands,
            mut notes,
        } = self;
        notes.extend_from_slice(&filters.notes)?;
        compared(
            alloc,
            &on,
            "expect",
            Relation::Expected,
            NOT_COMPARED,
            demands,
            filters.chain,
            notes,
        )
    }
}

/// The answer to the policy in the file with the first of these names, and to the filters of the files behind it.
pub fn expect_answer<S: Shelf, A: Analysis>(
    alloc: Global,
    asked: &Asked,
    names: &[String],
    shelf: &S,
    analysis: &A,
    reads: &mut u64,
) -> Result<Answer, Trouble>
    requires named { 1 ≤ length names.now }
    ensures told { OfFirst (map string_bytes names.now) (ending_of result) (λ name others. OfDemands (S.held shelf.now) name (ending_of result) (λ it.
        IsExpectOf (S.held shelf.now) (A.may_spend analysis.now) (question_of asked.now) name it others (ending_of result))) }
    ensures counted { CountsReads result reads.old reads.new }
{
    let (name, files) = first_name(names);
    let text = content(alloc, shelf, reads, name, MOST_BYTES)?;
    let it = demands_in(alloc, name, unmarked(&text))?;
    let arch = arch_by(asked, &it);
    if is_turned(arch) {
        return Err(Trouble::Refused(turned_line(alloc, Word::Expect, b"arch s390x")?));
    }
    let context = context_on(asked, arch);
    let reader = Reader {
        shelf,
        context: &context,
        manner: Manner {
            big_endian: false,
            strict: asked.strict,
        },
    };
    let on = On {
        analysis,
        architecture: architecture_of(arch),
        naming: naming_asked(asked.numbers),
        printing: printing_asked(asked.json),
    };
    let notes = others_note(alloc, name, asked.arch, it.says_others)?;
    let chain = it.chain;
    reader.answer(alloc, reads, files, Expect { on, chain, notes })
}

// The architecture that is named, or else that of the policy.
fn arch_by(asked: &Asked, it: &Demands) -> Option<Architecture>
    ensures arch { result ≡ (asked_by (question_of asked.now) it.now).arch }
{
    Some(asked.arch.unwrap_or(it.architecture))
}

// What is said where calls of other architectures are not compared, though the policy in this file says what they get.
fn others_note(
    alloc: Global,
    name: &str,
    arch: Option<Architecture>,
    says_others: bool,
) -> Result<Vec<u8>, AllocError>
    ensures note { IfOk result (λ note. note.items ≡ others_note name.now arch says_others) }
{
    if says_others && arch.is_none() {
        about(
            alloc,
            name,
            "others: calls of other architectures were not compared: expected --arch",
        )
    } else {
        Ok(Vec::new(alloc))
    }
}
