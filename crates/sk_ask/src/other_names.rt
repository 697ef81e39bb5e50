//! The names that others have for architectures, calls and kernels.
ghost use Rattle.std.specs.Prelude.{◌≡◌, ◌≤◌, find, length};
ghost use Rattle.std.specs.List.{list_any, position_or_len};
ghost use Rattle.std.specs.Option.{option_map};
ghost use Rattle.std.specs.Str.{bytes_eq};
ghost use Rattle.sk_names.specs.Architectures.{architectures};
ghost use Rattle.sk_ask.specs.OtherNames.{architecture_meant, bare_name, behind, is_among, is_called, kernel_meant, other_names, version_length};

use sk_names::Architecture;
use sk_profile_json::{Kernel, kernel_of, scmp_name};
use sk_text::is_same;

/// The architecture that a name means: its own, one that others have for it, or its constant of libseccomp.
pub(crate) fn architecture_meant(name: &[u8]) -> Option<Architecture>
    ensures architecture { result ≡ architecture_meant name.now }
{
    match Architecture::named(name) {
        Some(architecture) => Some(architecture),
        None => called(name),
    }
}

// The one that others call so.
fn called(name: &[u8]) -> Option<Architecture>
    ensures architecture { result ≡ find (is_called name.now) architectures }
{
    Architecture::ALL
        .iter()
        .copied()
        .find(|architecture| is_called(name, *architecture))
}

// Whether others call it so.
fn is_called(name: &[u8], architecture: Architecture) -> bool
    ensures called { result ≡ is_called name.now architecture }
{
    is_same(name, scmp_name(architecture).as_bytes()) || is_other(name, architecture)
}

fn is_other(name: &[u8], architecture: Architecture) -> bool
    ensures other { result ≡ list_any (bytes_eq name.now) (other_names architecture) }
{
    match architecture {
        Architecture::X86_64 => is_same(name, b"x86_64") || is_same(name, b"amd64"),
        Architecture::I386 => is_same(name, b"x86") || is_same(name, b"i686"),
        Architecture::Aarch64 => is_same(name, b"arm64"),
        Architecture::Ppc64le => is_same(name, b"ppc64el") || is_same(name, b"powerpc64le"),
        Architecture::Loongarch64 => is_same(name, b"loong64"),
        Architecture::X32 | Architecture::Arm | Architecture::Riscv64 | Architecture::S390x => {
            false
        }
    }
}

/// The name of a call, where a word is that of its number in C, and else the word.
pub(crate) fn bare_name(word: &[u8]) -> &[u8]
    ensures name { result.now ≡ bare_name word.now }
{
    match behind(b"SYS_", word) {
        Some(name) => name,
        None => behind(b"__NR_", word).unwrap_or(word),
    }
}

/// What stands behind the beginning of a word, where it begins so.
pub(crate) fn behind<'a>(start: &[u8], word: &'a [u8]) -> Option<&'a [u8]>
    ensures behind { option_map (λ it. it.now) result ≡ behind start.now word.now }
{
    if start.len() <= word.len() && is_same(&word[..start.len()], start) {
        Some(&word[start.len()..])
    } else {
        None
    }
}

/// The version of a release as uname(1) tells it, of which the first two numbers count.
pub(crate) fn kernel_meant(text: &[u8]) -> Option<Kernel>
    ensures kernel { result ≡ kernel_meant text.now }
{
    let length = version_length(text).min(text.len());
    kernel_of(&text[..length])
}

// How long the first two numbers are, with their point.
fn version_length(text: &[u8]) -> usize
    ensures length { result ≡ version_length text.now }
{
    let behind = place_of(b".", text) + 1;
    if behind >= text.len() {
        return behind;
    }
    behind + place_of(b".-+", &text[behind..])
}

// The place of the first of these bytes, or the length where there is none.
fn place_of(bytes: &[u8], text: &[u8]) -> usize
    ensures within { result ≤ length text.now }
    ensures first { result ≡ position_or_len (is_among bytes.now) text.now }
{
    for (at, byte) in text.iter().enumerate() {
        if is_among(bytes, *byte) {
            return at;
        }
    }
    text.len()
}

fn is_among(bytes: &[u8], byte: u8) -> bool
    ensures among { result ≡ is_among bytes.now byte }
{
    bytes.iter().any(|it| *it == byte)
}
