//! The words of a policy's text.
ghost use Rattle.std.specs.Prelude.{◌≡◌, ◌-◌, ◌++◌, [], length, map, slice_get, IfOk, OnOk};
ghost use Rattle.sk_policy_text.specs.Words.{seen, is_comma, begins_joined, place_of, placed, words_behind, words_of_line, words_of_text};

use crate::cutting::{LineWords, begins_blank};
use crate::word::{Place, Word};
use sk_text::{Lines, cut, is_same};
use std::alloc::{AllocError, Global};

/// The words of a text, in their order.
pub fn words_in(alloc: Global, text: &[u8]) -> Result<Vec<Word<'_>>, AllocError>
    ensures words { IfOk result (λ words. map seen words.items ≡ words_of_text text.now) }
{
    let mut words = Vec::new(alloc);
    let mut number = 0;
    for line in Lines(text) {
        number += 1;
        push_line(&mut words, number, line)?;
    }
    Ok(words)
}

// Appends the words of a line.
fn push_line<'a>(words: &mut Vec<Word<'a>>, number: usize, line: &'a [u8]) -> Result<(), AllocError>
    ensures pushed { OnOk result (map seen words.new.items ≡
        map seen words.old.items ++ placed number (place_of (map seen words.old.items) line.now) (words_of_line line.now)) }
{
    let (said, _remark) = cut(line, b'#');
    let mut place = place_of(words.as_slice(), line, said);
    for text in LineWords(said) {
        words.push(Word {
            text,
            line: number,
            place,
        })?;
        place = Place::Behind;
    }
    Ok(())
}

// What the first word of a line begins, of which this is said before a remark.
#[tactic(auto, unfolding(crate::specs::Words::place_of))]
fn place_of(before: &[Word<'_>], line: &[u8], said: &[u8]) -> Place
    requires said { words_behind [] said.now ≡ words_of_line line.now }
    ensures place { result ≡ place_of (map seen before.now) line.now }
{
    if ends_open(before) || begins_joined(said) {
        Place::Behind
    } else if begins_blank(line) {
        Place::Case
    } else {
        Place::Row
    }
}

// Whether the last of these words is a comma.
fn ends_open(words: &[Word<'_>]) -> bool
    ensures open { result ≡ is_comma (slice_get (map seen words.now) (length (map seen words.now) - 1)) }
{
    match words.last() {
        Some(word) => is_same(word.text, b","),
        None => false,
    }
}

fn begins_joined(said: &[u8]) -> bool
    ensures joined { result ≡ begins_joined (words_behind [] said.now) }
{
    match LineWords(said).next() {
        Some(word) => is_same(word, b"&&") || is_same(word, b"||"),
        None => false,
    }
}
