//! Sets of scratch words, as the bits of a number.
ghost use Rattle.std.specs.Prelude.{ℕ, ◌≡◌, ◌<◌, ◌↔◌, length, IsTrue};
ghost use Rattle.sk_filter.specs.Sets.{Lacks, Meets};

/// A set of scratch words: bit m is word m.
pub(crate) type WordSet = u16;

/// The scratch words of the machine.
pub(crate) const WORDS: u32 = 16;

/// Whether the word is in the set.
pub(crate) fn has_word(set: WordSet, word: u32) -> bool
    requires { word < WORDS }
    ensures { IsTrue result ↔ (Lacks set word → ⊥) }
{
    set >> word & 1 != 0
}

/// The set with one word more.
pub(crate) fn with_word(set: WordSet, word: u32) -> WordSet
    requires { word < WORDS }
    ensures { (other : ℕ) → Lacks result other ↔ (Lacks set other × (word ≡ other → ⊥)) }
{
    set | 1 << word
}

/// Leaves in one of the sets the words that are in the given set too.
pub(crate) fn meet(sets: &mut [WordSet], at: usize, set: WordSet)
    requires { at < length sets.old }
    ensures { Meets at set sets.old sets.new }
{
    sets[at] &= set;
}
