//! Words that are numbers, values, labels or destinations.
ghost use Rattle.std.specs.Prelude.{◌≡◌};
ghost use Rattle.std.specs.Option.{option_map};
ghost use Rattle.sk_asm.specs.Grammar.{u8_of, u16_of, u32_of, label_of, destination_of, action_with, action_value, returned_value};
ghost use Rattle.sk_asm.specs.Views.{destination_to};
ghost use Rattle.sk_text.specs.Numbers.{number_of, up_to};

use crate::distance::Distance;
use sk_insn::Action;
use sk_text::{cut, is_name, number_up_to};

pub(crate) fn u8_of(word: &[u8]) -> Option<u8>
    ensures value { result ≡ u8_of word.now }
{
    let number = number_up_to(word, 0xff)?;
    Some(number as u8)
}

pub(crate) fn u16_of(word: &[u8]) -> Option<u16>
    ensures value { result ≡ u16_of word.now }
{
    let number = number_up_to(word, 0xffff)?;
    Some(number as u16)
}

pub(crate) fn u32_of(word: &[u8]) -> Option<u32>
    ensures value { result ≡ u32_of word.now }
{
    let number = number_up_to(word, 0xffff_ffff)?;
    Some(number as u32)
}

// The name of a label that a word gives.
#[tactic(auto, unfolding(crate::specs::Grammar::label_of))]
pub(crate) fn label(word: &[u8]) -> Option<&[u8]>
    ensures name { option_map (λ name. name.now) result ≡ label_of word.now }
{
    if !word.ends_with(b":") {
        return None;
    }
    let name = &word[..word.len() - 1];
    is_name(name).then_some(name)
}

// A jump's destination: the distance, as wide as its field and as far as it is known, and the label.
#[tactic(auto, unfolding(crate::specs::Grammar::destination_of))]
pub(crate) fn destination<N: Distance>(word: &[u8]) -> Option<(N, Option<&[u8]>)>
    ensures to { option_map (λ to. destination_to (N.number to.0) to.1) result ≡ destination_of (λ digits. up_to N.most (number_of digits)) word.now }
{
    if word.starts_with(b"+") {
        let count = N::read(&word[1..])?;
        return Some((count, None));
    }
    is_name(word).then_some((N::of(0), Some(word)))
}

#[tactic(auto, unfolding(crate::specs::Grammar::action_with))]
fn action_with(name: &[u8], data: &[u8]) -> Option<u32>
    ensures value { result ≡ action_with name.now «data».now }
{
    let action = Action::named(name)?;
    let value = action.value()?;
    let given = u16_of(data)?;
    Some(value + u32::from(given))
}

#[tactic(auto, unfolding(crate::specs::Grammar::action_value))]
pub(crate) fn action_value(word: &[u8]) -> Option<u32>
    ensures value { result ≡ action_value word.now }
{
    if word.contains(&b'/') {
        let (name, number) = cut(word, b'/');
        return action_with(name, number);
    }
    Action::named(word)?.value()
}

// What a filter returns.
#[tactic(auto, unfolding(crate::specs::Grammar::returned_value))]
pub(crate) fn returned(text: &[u8]) -> Option<u32>
    ensures value { result ≡ returned_value text.now }
{
    u32_of(text).or_else(|| action_value(text))
}
