//! Ways with the words of a call at hand: a test parts the calls on one only where there are some on both sides.
ghost use Rattle.std.specs.Prelude.{ℕ, ◌≡◌, ◌≢◌, ◌<◌, ◌≤◌, ◌^◌, IsTrue, slice_index_or};
ghost use Rattle.sk_conditions.specs.declared.path.Path.{Path};
ghost use Rattle.sk_conditions.specs.Followed.{is_word};
ghost use Rattle.sk_conditions.specs.Ways.{ComesTo, PartsSo};

use crate::path::Path;
use crate::solve::Sought;
use crate::witness::word_on;
use crate::{Budget, Numbers, Test};
use sk_filter::holds;
use sk_insn::ARCHITECTURE;

/// The steps that a fork counts for, which takes memory.
const FORK: u64 = 64;

/// Calls with one of the numbers that come out so in the tests on the way, and the words of one of them.
#[derive(Clone, Copy)]
pub struct Way<'a> {
    pub numbers: Numbers,
    pub path: &'a Path<'a>,
    pub words: &'a [u32; 16],
}

/// How a test parts the calls on a way.
#[derive(Clone, Copy, Debug)]
pub enum Parted {
    /// Not at all: it comes out so on each.
    Only(bool),
    /// It holds on a call with these words, and fails on one with those.
    Both([u32; 16], [u32; 16]),
    /// It was not found within the budget.
    Unknown,
}

/// How a test parts the calls on a way. Of the word that it looks at another one is sought, which comes out otherwise.
pub fn part(way: Way<'_>, test: Test, budget: &mut Budget) -> Parted
    requires comes { ComesTo way.numbers way.path.now way.words.now }
    ensures parts { PartsSo way.entry.numbers way.entry.path.now test result }
    ensures found { IsTrue (is_word test.place) → 0 < budget.new.steps → result ≢ Parted.Unknown }
    ensures left { budget.new.steps ≤ budget.old.steps }
{
    let index = test.place / 4;
    if test.place % 4 != 0 || index >= 16 {
        return Parted::Unknown;
    }
    let word = way.words[usize::from(index)];
    let answer = holds(test.comparison, word & test.mask, test.k);
    let otherwise = Path::Beyond(way.path, test, !answer);
    match word_on(&otherwise, way.numbers, index, budget) {
        Sought::Nothing => Parted::Only(answer),
        Sought::Unknown => Parted::Unknown,
        Sought::Word(other) => {
            if !budget.take(FORK) {
                return Parted::Unknown;
            }
            let others = with_word(way.words, index, other);
            if answer {
                Parted::Both(*way.words, others)
            } else {
                Parted::Both(others, *way.words)
            }
        }
    }
}

// The words with another one at an index.
fn with_word(words: &[u32; 16], index: u8, word: u32) -> [u32; 16]
    requires inside { index < 16 }
    ensures there { slice_index_or result index 0 ≡ word }
    ensures others { (i : ℕ) → i ≢ index → slice_index_or result i 0 ≡ slice_index_or words.now i 0 }
    ensures fit { (i : ℕ) → slice_index_or result i 0 < 2 ^ 32 }
{
    let mut more = *words;
    more[usize::from(index)] = word;
    more
}

/// The words of a call with the first of the numbers.
pub fn first_words(numbers: Numbers) -> [u32; 16]
    requires range { numbers.first ≤ numbers.last }
    ensures comes { ComesTo numbers Path.Start result }
{
    let mut words = [0; 16];
    words[0] = numbers.first;
    words[1] = ARCHITECTURE;
    words
}
