//! The mode of a process, which strace(1) tells where it changes.
ghost use Rattle.std.specs.Prelude.{◌≡◌};
ghost use Rattle.std.specs.Cmp.Lexicographic.{pointwise};
ghost use Rattle.std.specs.Str.{bytes_eq};
ghost use Rattle.sk_text.specs.Lines.{words_of};
ghost use Rattle.sk_replay.specs.Modes.{is_mode_of, is_other_mode, mode_text, runs_otherwise};

use sk_names::Architecture;
use sk_text::{Words, is_same};

/// Whether a first word and those behind it tell that the calls which follow are not of an architecture.
#[tactic(auto, unfolding(crate::specs::Modes::is_other_mode))]
pub(crate) fn is_other_mode(architecture: Architecture, word: &[u8], words: Words<'_>) -> bool
    ensures other { result ≡ is_other_mode architecture word.now (words_of words.entry.0.now) }
{
    is_same(word, b"Process") && runs_otherwise(architecture, words)
}

fn runs_otherwise(architecture: Architecture, mut words: Words<'_>) -> bool
    ensures other { result ≡ runs_otherwise architecture (words_of words.entry.0.now) }
{
    match words.next() {
        Some(_pid) => match words.next() {
            Some(runs) => is_same(runs, b"runs") && !is_mode_of(architecture, words),
            None => false,
        },
        None => false,
    }
}

fn is_mode_of(architecture: Architecture, words: Words<'_>) -> bool
    ensures mode { result ≡ is_mode_of architecture (words_of words.entry.0.now) }
{
    are_same(words, Words(mode_text(architecture)))
}

// What stands behind `Process PID=N runs` where the calls are of an architecture.
fn mode_text(architecture: Architecture) -> &'static [u8]
    ensures text { result.now ≡ mode_text architecture }
{
    match architecture {
        Architecture::X32 => b"in x32 mode. ]",
        Architecture::I386 | Architecture::Arm => b"in 32 bit mode. ]",
        Architecture::X86_64
        | Architecture::Aarch64
        | Architecture::Riscv64
        | Architecture::Ppc64le
        | Architecture::S390x
        | Architecture::Loongarch64 => b"in 64 bit mode. ]",
    }
}

#[tactic(auto, using(crate::proofs::Pairs::both, crate::proofs::Pairs::apart, crate::proofs::Pairs::longer, crate::proofs::Pairs::shorter))]
fn are_same(mut words: Words<'_>, mut others: Words<'_>) -> bool
    ensures same { result ≡ pointwise bytes_eq (words_of words.entry.0.now) (words_of others.entry.0.now) }
{
    while let Some(word) = words.next() {
        match others.next() {
            Some(other) => {
                if !is_same(word, other) {
                    return false;
                }
            }
            None => return false,
        }
    }
    others.next().is_none()
}
