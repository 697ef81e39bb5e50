//! Audit records, which the kernel writes of calls that a filter refused or logged.
ghost use Rattle.std.specs.Prelude.{◌≡◌, ◌≤◌, ◌∷◌, ◌&&◌, [], nat_eq, true, length, filter, IfNone, IfSome};
ghost use Rattle.std.specs.Option.{option_map};
ghost use Rattle.std.specs.List.{list_any, starts_with};
ghost use Rattle.sk_text.specs.Lines.{words_of};
ghost use Rattle.sk_replay.specs.AuditRecords.{action_in, audited_call, begins_with_type, fields_in, has_number, has_source_and_type, is_record_type, is_source, number_behind, value_behind};

use crate::call::Call;
use crate::digits::digits_up_to;
use sk_names::Architecture;
use sk_text::{Words, cut, is_same};

/// The text in which a line has the fields of a record, where it is one.
#[tactic(auto, unfolding(crate::specs::AuditRecords::fields_in))]
pub(crate) fn fields_in(line: &[u8]) -> Option<&[u8]>
    ensures fields { option_map (λ fields. fields.now) result ≡ fields_in line.now }
{
    let (front, behind) = cut(line, b'(');
    if has_record_type(Words(front)) {
        Some(behind)
    } else if has_source_and_type(Words(front)) {
        Some(line)
    } else {
        None
    }
}

#[tactic(auto, using(crate::proofs::Marks::any_behind, crate::proofs::Marks::any_here))]
fn has_record_type(mut words: Words<'_>) -> bool
    ensures some { result ≡ list_any is_record_type (words_of words.entry.0.now) }
{
    while let Some(word) = words.next() {
        if is_record_type(word) {
            return true;
        }
    }
    false
}

#[tactic(auto, unfolding(crate::specs::AuditRecords::is_record_type))]
fn is_record_type(word: &[u8]) -> bool
    ensures kind { result ≡ is_record_type word.now }
{
    is_same(word, b"type=1326") || is_same(word, b"type=SECCOMP")
}

// Whether the type stands behind where a record comes from, as the journal writes it.
#[tactic(auto, using(crate::proofs::Marks::type_behind, crate::proofs::Marks::type_here))]
fn has_source_and_type(mut words: Words<'_>) -> bool
    ensures some { result ≡ has_source_and_type (words_of words.entry.0.now) }
{
    while let Some(word) = words.next() {
        if is_followed_by_type(word, Words(words.0)) {
            return true;
        }
    }
    false
}

fn is_followed_by_type(word: &[u8], words: Words<'_>) -> bool
    ensures both { result ≡ is_source word.now && begins_with_type (words_of words.entry.0.now) }
{
    is_source(word) && begins_with_type(words)
}

#[tactic(auto, unfolding(crate::specs::AuditRecords::is_source))]
fn is_source(word: &[u8]) -> bool
    ensures source { result ≡ is_source word.now }
{
    word.starts_with(b"audit[") && word.ends_with(b"]:")
}

fn begins_with_type(mut words: Words<'_>) -> bool
    ensures kind { result ≡ begins_with_type (words_of words.entry.0.now) }
{
    match words.next() {
        Some(word) => is_same(word, b"SECCOMP"),
        None => false,
    }
}

/// The call that the fields of a record tell of, where it is one of an architecture.
#[tactic(auto, unfolding(crate::specs::AuditRecords::audited_call))]
pub(crate) fn audited_call(architecture: Architecture, text: &[u8]) -> Option<Call>
    ensures call { result ≡ audited_call architecture (words_of text.now) }
{
    let audit = number_behind(16, b"arch=", text)?;
    let nr = number_behind(10, b"syscall=", text)?;
    if audit == architecture.audit() && has_number(architecture, nr) {
        Some(Call::recorded(nr, action_in(text)))
    } else {
        None
    }
}

// The action that a record tells.
#[tactic(auto, unfolding(crate::specs::AuditRecords::action_in))]
fn action_in(text: &[u8]) -> Option<u32>
    ensures action { result ≡ action_in (words_of text.now) }
{
    let value = value_behind(b"code=0x", Words(text))?;
    let (digits, _names) = cut(value, 29);
    let action = digits_up_to(digits, 16, 0xffff_ffff)?;
    Some(action as u32)
}

// Whether an architecture has a call with this number, as far as the number tells it from the other one with its audit number.
fn has_number(architecture: Architecture, nr: u32) -> bool
    ensures has { result ≡ has_number architecture nr }
{
    match architecture {
        Architecture::X86_64 => nr < 0x4000_0000,
        Architecture::X32 => 0x4000_0000 <= nr && nr < 0x8000_0000,
        Architecture::I386
        | Architecture::Aarch64
        | Architecture::Arm
        | Architecture::Riscv64
        | Architecture::Ppc64le
        | Architecture::S390x
        | Architecture::Loongarch64 => true,
    }
}

// The number of 32 bits that stands behind a key, in digits of a radix.
#[tactic(auto, unfolding(crate::specs::AuditRecords::number_behind))]
fn number_behind(radix: u32, key: &[u8], text: &[u8]) -> Option<u32>
    requires low { 2 ≤ radix }
    requires high { radix ≤ 36 }
    ensures number { result ≡ number_behind radix key.now (words_of text.now) }
{
    let digits = value_behind(key, Words(text))?;
    let number = digits_up_to(digits, radix, 0xffff_ffff)?;
    Some(number as u32)
}

// What stands behind a key in the only word that begins with it.
fn value_behind<'a>(key: &[u8], mut words: Words<'a>) -> Option<&'a [u8]>
    ensures value { option_map (λ v. v.now) result ≡ value_behind key.now (words_of words.entry.0.now) }
{
    let first = next_with(key, &mut words)?;
    match next_with(key, &mut words) {
        Some(_second) => None,
        None => Some(&first[key.len()..]),
    }
}

// The first word that begins with a key. The words behind it are left.
#[tactic(auto, using(crate::proofs::Marks::kept_with, crate::proofs::Marks::kept_without))]
fn next_with<'a>(key: &[u8], words: &mut Words<'a>) -> Option<&'a [u8]>
    ensures begins { IfSome result (λ word. starts_with nat_eq word.now key.now ≡ true) }
    ensures first { IfSome result (λ word.
        filter (λ w. starts_with nat_eq w key.now) (words_of words.old.0.now)
        ≡ word.now ∷ filter (λ w. starts_with nat_eq w key.now) (words_of words.new.0.now)) }
    ensures none { IfNone result (filter (λ w. starts_with nat_eq w key.now) (words_of words.old.0.now) ≡ []) }
{
    while let Some(word) = words.next() {
        if word.starts_with(key) {
            return Some(word);
        }
    }
    None
}
