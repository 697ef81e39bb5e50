//! `ask why`: the path of a call through the filters.
ghost use Rattle.std.specs.Prelude.{◌≡◌, ◌≤◌, ◌++◌, IfOk, IfErr, OnOk, Ok, length, map, string_bytes};
ghost use Rattle.std.specs.Result.{is_ok};
ghost use Rattle.sk_replay.specs.CallWords.{call_meant};
ghost use Rattle.sk_replay.specs.Lines.{recorded_of};
ghost use Rattle.sk_replay.specs.Faults.{fault_of};
ghost use Rattle.sk_document.specs.Deciding.{pair_of};
ghost use Rattle.sk_ask.specs.OtherNames.{bare_name};
ghost use Rattle.sk_ask.specs.Counts.{CountsReads};
ghost use Rattle.sk_ask.specs.Endings.{ending_of};
ghost use Rattle.sk_ask.specs.Troubles.{OfFiles, OfFirst};
ghost use Rattle.sk_ask.specs.Whys.{IsFaultOf, IsMeantBy, IsUnmeant, IsWhyPrinted, OfMeant, TellsWhyOf, fault_line, hidden_line, logged_line, no_call_line, other_line, unclear_line};

use crate::answer::{Answer, Tells};
use crate::deciding::{decisions_of, push_decisions};
use crate::meant::Meant;
use crate::nearest::no_call_named;
use crate::other_names::bare_name;
use crate::printing::Printing;
use crate::words::first_name;
use crate::{Filters, Reader, Shelf, Trouble, of_word};
use sk_document::{Decision, why_document};
use sk_filter::Chain;
use sk_insn::Record;
use sk_names::Architecture;
use sk_profile_json::Context;
use sk_replay::{CallFault, Recorded, call_in, name_part, plain_word, push_logged_name};
use sk_show::why;
use std::alloc::{AllocError, Global};

/// What is said where an argument is not known.
const HIDDEN: &str =
    "why: the kernel's line does not show the argument that the verdict depends on: write the call with its arguments: ";

/// What is said of a line of the kernel that tells of another call.
const UNCLEAR: &str =
    "why: the kernel's line has no arch= and syscall= of a call of this architecture: ";

/// `ask why`, behind the call, of FILEs with these names, where the profiles among them are to hold so.
#[derive(Drop)]
pub struct Why<'a> {
    pub printing: Printing,
    pub architecture: Architecture,
    pub meant: Meant,
    pub context: &'a Context<'a>,
    pub names: &'a [String],
}

impl Tells for Why<'_> {
    ghost tells = { λ it read ending.
        TellsWhyOf it.printing it.architecture it.meant it.context.now (map string_bytes it.names.now) read ending };

    fn told(self, alloc: Global, filters: Filters) -> Result<Answer, Trouble> {
        let Filters {
            chain,
            files,
            notes,
            ..
        } = filters;
        if let Some(argument) = self.meant.hidden(alloc, self.architecture, &chain)? {
            return Err(Trouble::Refused(hidden_line(alloc, argument)?));
        }
        let call = self.meant.record(self.architecture);
        let decisions = decisions_of(alloc, self.context, &call, self.names, &files)?;
        let text = printed(
            alloc,
            self.printing,
            self.architecture,
            &chain,
            &self.meant,
            &decisions,
        )?;
        Ok(Answer {
            text,
            notes,
            denies: false,
        })
    }
}

fn printed(
    alloc: Global,
    printing: Printing,
    architecture: Architecture,
    chain: &Chain,
    meant: &Meant,
    decisions: &[Decision<'_>],
) -> Result<Vec<u8>, AllocError>
    ensures printed { IfOk result (λ text. IsWhyPrinted printing architecture chain.now meant.now (map pair_of decisions.now) text.items) }
{
    let call = meant.record(architecture);
    match printing {
        Printing::Text => {
            let mut text = why(alloc, architecture, chain, &call)?;
            push_decisions(alloc, &mut text, decisions)?;
            push_logged(&mut text, meant.logged())?;
            Ok(text.into_bytes())
        }
        Printing::Document => {
            why_document(alloc, architecture, chain, &call, decisions, meant.logged())
        }
    }
}

// What the kernel did.
fn push_logged(text: &mut String, logged: Option<u32>) -> Result<(), AllocError>
    ensures pushed { OnOk result (string_bytes text.new ≡ string_bytes text.old ++ logged_line logged) }
{
    let Some(value) = logged else {
        return Ok(());
    };
    text.push_str("logged: ")?;
    push_logged_name(text, value)?;
    text.push_str("\n")
}

fn hidden_line(alloc: Global, argument: usize) -> Result<Vec<u8>, AllocError>
    ensures line { IfOk result (λ line. line.items ≡ hidden_line argument) }
{
    let shown = format!(in alloc; "args[{argument}]")?;
    of_word(alloc, HIDDEN, shown.as_bytes())
}

/// The answer to the call that the first of these names stands for, and to the filters of the files behind it.
pub fn why_answer<S: Shelf>(
    alloc: Global,
    names: &[String],
    reader: &Reader<'_, S>,
    architecture: Architecture,
    printing: Printing,
    reads: &mut u64,
) -> Result<Answer, Trouble>
    requires named { 1 ≤ length names.now }
    ensures told { OfFirst (map string_bytes names.now) (ending_of result) (λ word others. OfMeant architecture word others (ending_of result) (λ meant.
        OfFiles reader.now.manner (S.held reader.now.shelf.now) reader.now.context.now others (ending_of result) (λ read.
        TellsWhyOf printing architecture meant reader.now.context.now others read (ending_of result)))) }
    ensures counted { CountsReads result reads.old reads.new }
{
    let (word, files) = first_name(names);
    let meant = meant(alloc, architecture, word, files)?;
    let it = Why {
        printing,
        architecture,
        meant,
        context: reader.context,
        names: files,
    };
    reader.answer(alloc, reads, files, it)
}

// The call that a word before others stands for.
fn meant(
    alloc: Global,
    architecture: Architecture,
    word: &str,
    others: &[String],
) -> Result<Meant, Trouble>
    ensures call { IfOk result (λ meant. IsMeantBy architecture word.now (recorded_of architecture word.now) meant) }
    ensures fault { IfErr result (IsUnmeant architecture word.now (map string_bytes others.now) (recorded_of architecture word.now)) }
{
    match Recorded::of(architecture, word.as_bytes()) {
        Recorded::NoRecord => Ok(Meant::Whole(call_meant(alloc, architecture, word, others)?)),
        Recorded::Unclear => Err(Trouble::Refused(unclear_line(alloc, architecture)?)),
        Recorded::Of(call) => Ok(Meant::Logged(call)),
    }
}

fn unclear_line(alloc: Global, architecture: Architecture) -> Result<Vec<u8>, AllocError>
    ensures line { IfOk result (λ line. line.items ≡ unclear_line architecture) }
{
    of_word(alloc, UNCLEAR, architecture.text().as_bytes())
}

fn call_meant(
    alloc: Global,
    architecture: Architecture,
    word: &str,
    others: &[String],
) -> Result<Record, Trouble>
    ensures call { IfOk result (λ call. call_meant architecture (bare_name word.now) ≡ Ok call) }
    ensures fault { IfErr result (IsFaultOf architecture word.now (map string_bytes others.now)) }
{
    let Some(plain) = plain_word(alloc, bare_name(word.as_bytes()))? else {
        return Err(Trouble::Refused(other_line(alloc, CallFault::Unquoted)?));
    };
    match call_in(architecture, &plain) {
        Ok(call) => Ok(call),
        Err(fault) => Err(Trouble::Refused(fault_line(alloc, architecture, word, others, fault)?)),
    }
}

#[tactic(auto, using(crate::proofs::Faults::other_faults))]
fn fault_line(
    alloc: Global,
    architecture: Architecture,
    word: &str,
    others: &[String],
    fault: CallFault<'_>,
) -> Result<Vec<u8>, AllocError>
    ensures line { IfOk result (λ line. line.items ≡ fault_line architecture word.now (map string_bytes others.now) (fault_of fault.entry)) }
{
    match fault {
        CallFault::NoCall => no_call_line(alloc, architecture, word, others),
        _ => other_line(alloc, fault),
    }
}

// The line that says of a word that it names no call.
fn no_call_line(
    alloc: Global,
    architecture: Architecture,
    word: &str,
    others: &[String],
) -> Result<Vec<u8>, AllocError>
    ensures line { IfOk result (λ line. line.items ≡ no_call_line architecture word.now (map string_bytes others.now)) }
{
    if let Some((other, _)) = others.split_first() {
        if is_call(alloc, architecture, other.as_str())? {
            let what = "why: the call stands before the files: ";
            return of_word(alloc, what, other.as_bytes());
        }
    }
    no_call_named(alloc, architecture, name_part(word.as_bytes()))
}

// Whether a word stands for a call.
fn is_call(alloc: Global, architecture: Architecture, word: &str) -> Result<bool, AllocError>
    ensures call { IfOk result (λ it. it ≡ is_ok (call_meant architecture (bare_name word.now))) }
{
    match plain_word(alloc, bare_name(word.as_bytes()))? {
        Some(plain) => Ok(call_in(architecture, &plain).is_ok()),
        None => Ok(false),
    }
}

fn other_line(alloc: Global, fault: CallFault<'_>) -> Result<Vec<u8>, AllocError>
    ensures line { IfOk result (λ line. line.items ≡ other_line (fault_of fault.entry)) }
{
    let what = format!(in alloc; "why: {fault}")?;
    of_word(alloc, &what, fault.shown_behind())
}
