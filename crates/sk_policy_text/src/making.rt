//! From a policy's text to the image of its filter.
ghost use Rattle.std.specs.Prelude.{◌≡◌, List, [], All, IfOk, IfErr};
ghost use Rattle.sk_policy.specs.Policies.{AreApart, AreWithin, RuleThere};
ghost use Rattle.sk_policy_text.specs.declared.stated.Stated.{Stated};
ghost use Rattle.sk_policy_text.specs.PolicyOf.{IsFaultOf};
ghost use Rattle.sk_policy_text.specs.Views.{all_seen};
ghost use Rattle.sk_policy_text.specs.PolicyMade.{AreSaid, IsReadAs, IsUnreadAs, IsUnsaid, IsImageOf, IsTooLong, IsFilterOf, IsRefused, IsMade, IsUnmade};

use crate::drafting::policy_of;
use crate::policy_fault::PolicyFault;
use crate::reading::words_in;
use crate::refusal::Refusal;
use crate::sentence::ReadFault;
use crate::sentences::{sentence_at, sentence_of};
use crate::stated::{Stated, architecture_of, first_expectation};
use crate::word::Word;
use sk_insn::write_insns;
use sk_names::Architecture;
use sk_policy::{CodeFault, Policy, policy_filter};
use std::alloc::Global;

// The sentence of these words.
fn read<'a>(
    alloc: Global,
    by: Architecture,
    line: usize,
    words: &'a [Word<'a>],
) -> Result<Stated<'a>, Refusal>
    ensures read { IfOk result (IsReadAs by line (all_seen words.now)) }
    ensures fault { IfErr result (IsUnreadAs by line (all_seen words.now)) }
{
    match sentence_of(alloc, by, words) {
        Ok(sentence) => Ok(Stated { line, sentence }),
        Err(ReadFault::Sentence(fault)) => Err(Refusal::Sentence(by, line, fault)),
        Err(ReadFault::Memory) => Err(Refusal::Memory),
    }
}

/// All sentences, each read on the architecture that those before it say.
pub fn sentences_in<'a>(alloc: Global, words: &'a [Word<'a>]) -> Result<Vec<Stated<'a>>, Refusal>
    ensures said { IfOk result (λ text. AreSaid [] (all_seen words.now) text.items []) }
    ensures fault { IfErr result (IsUnsaid (all_seen words.now)) }
{
    let mut text = Vec::new(alloc);
    let (_, mut left) = words.split_at(0);
    while let Some((first, _)) = left.split_first() {
        let (sentence, behind) = sentence_at(left);
        let by = architecture_of(&text);
        let stated = read(alloc, by, first.line, sentence)?;
        text.push(stated)?;
        left = behind;
    }
    Ok(text)
}

// The image of the filter of a policy.
fn image_of(alloc: Global, policy: &Policy) -> Result<Vec<u8>, Refusal>
    requires apart { AreApart policy.now.rules.items }
    requires within { AreWithin 0 0xffffffff policy.now.rules.items }
    requires there { All RuleThere policy.now.rules.items }
    ensures image { IfOk result (λ image. IsImageOf policy.now image.items) }
    ensures long { IfErr result (λ fault. IsTooLong policy.now fault) }
{
    match policy_filter(alloc, policy) {
        Ok(insns) => {
            let image = write_insns(alloc, &insns)?;
            Ok(image)
        }
        Err(CodeFault::TooLong) => Err(Refusal::TooLong),
        Err(CodeFault::Memory) => Err(Refusal::Memory),
    }
}

fn refusal_of(fault: PolicyFault) -> Refusal
    ensures refused { (text : List Stated) → IsFaultOf text fault → IsRefused text result }
{
    match fault {
        PolicyFault::Wrong(line, wrong) => Refusal::Policy(PolicyFault::Wrong(line, wrong)),
        PolicyFault::Twice(twice) => Refusal::Policy(PolicyFault::Twice(twice)),
        PolicyFault::Missing(number) => Refusal::Policy(PolicyFault::Missing(number)),
        PolicyFault::TooLong => Refusal::TooLong,
        PolicyFault::Memory => Refusal::Memory,
    }
}

/// The image of the filter of a text's sentences.
pub fn built<'a>(alloc: Global, text: &'a [Stated<'a>]) -> Result<Vec<u8>, Refusal>
    ensures image { IfOk result (λ image. IsFilterOf text.now image.items) }
    ensures fault { IfErr result (IsRefused text.now) }
{
    match policy_of(alloc, text) {
        Ok(policy) => {
            let image = image_of(alloc, &policy)?;
            Ok(image)
        }
        Err(fault) => Err(refusal_of(fault)),
    }
}

/// The image of the filter that gives each call what a policy's text says of it, `struct sock_filter` for each instruction; or the
/// first fault.
pub fn made(alloc: Global, text: &[u8]) -> Result<Vec<u8>, Refusal>
    ensures image { IfOk result (λ image. IsMade text.now image.items) }
    ensures fault { IfErr result (IsUnmade text.now) }
{
    let words = words_in(alloc, text)?;
    let stated = sentences_in(alloc, &words)?;
    if let Some((line, value)) = first_expectation(&stated) {
        return Err(Refusal::Expectation(line, value));
    }
    built(alloc, &stated)
}
