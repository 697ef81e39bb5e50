//! The words of `ask`, and the options that a word stands behind.
ghost use Rattle.std.specs.Prelude.{◌≡◌, IfOk, filter, map};
ghost use Rattle.std.specs.List.{list_any};
ghost use Rattle.std.specs.Str.{bytes_eq};
ghost use Rattle.sk_ask.specs.Asking.{allows, asks_help, asks_version, as_grant, has_option, has_runtime, for_runtime, is_of_another, options_meant, options_of, shared_flags, valued_name, valued_named, value_kind, tells_calls, tells_conditions, tells_of_one, may_compare, compares, with_old, with_own_flag, with_target, word_named, writes_documents, writes_filters, word_name};

use crate::runtime::Runtime;
use crate::target::{Grant, Target};
use sk_text::is_same;
use std::alloc::{AllocError, Global};

/// What is asked for, with the options that stand alone, each of one word.
#[derive(Clone, Copy, Debug, PartialEq, Eq)]
pub enum Word {
    /// What filters can answer to each call.
    Calls { examples: bool },
    /// The filters in a form, or one in their place.
    Filter { target: Target, smaller: bool },
    /// Under which conditions each verdict comes.
    When { dot: bool },
    /// Where two chains answer otherwise.
    Diff { stricter: bool },
    /// Where the verdicts are not as a policy expects.
    Expect,
    /// Which calls get another verdict by bits that Linux does not read.
    Lint { all: bool },
    /// The verdicts on the calls of a log, or on those alone that are made under a filter.
    Replay { since: bool },
    /// The least policy or profile that allows the calls of logs, or those alone, and what a runtime makes beside them.
    Allow(Allowing),
    /// The path of a call through the filters.
    Why,
    /// The listing of one filter.
    Show,
    /// What the filters answer to each architecture.
    Arches,
    /// Whether Linux takes the filters.
    Check,
    /// What a reviewer reads of the filters, and of what changed since an old one.
    Page { compares: bool },
}

/// What `ask allow` is asked for.
#[derive(Clone, Copy, Debug, PartialEq, Eq)]
pub struct Allowing {
    /// Calls that are made under a filter count alone.
    pub since: bool,
    /// What is written.
    pub grant: Grant,
    /// The runtime whose own calls are allowed too.
    pub runtime: Option<Runtime>,
}

/// The names of all words.
pub const NAMES: [&str; 13] = [
    "calls", "filter", "when", "diff", "expect", "lint", "replay", "allow", "why", "show",
    "arches", "check", "page",
];

/// The names of all options, those of several words first.
pub const OPTIONS: [&str; 23] = [
    "--help",
    "--arch",
    "--cap",
    "--kernel",
    "--machine",
    "--native",
    "--runc",
    "--strict",
    "--numbers",
    "--json",
    "--call",
    "--only",
    "--examples",
    "--to",
    "--raw",
    "--smaller",
    "--dot",
    "--stricter",
    "--all",
    "--old",
    "--since-seccomp",
    "--for",
    "--args",
];

impl Word {
    /// The one with this name.
    pub fn named(name: &[u8]) -> Option<Word>
        ensures word { result ≡ word_named name.now }
    {
        if is_same(name, b"calls") {
            Some(Word::Calls { examples: false })
        } else if is_same(name, b"filter") {
            Some(Word::Filter {
                target: Target::Lines,
                smaller: false,
            })
        } else if is_same(name, b"when") {
            Some(Word::When { dot: false })
        } else if is_same(name, b"diff") {
            Some(Word::Diff { stricter: false })
        } else if is_same(name, b"expect") {
            Some(Word::Expect)
        } else if is_same(name, b"lint") {
            Some(Word::Lint { all: false })
        } else if is_same(name, b"replay") {
            Some(Word::Replay { since: false })
        } else if is_same(name, b"allow") {
            Some(Word::Allow(Allowing {
                since: false,
                grant: Grant::Policy,
                runtime: None,
            }))
        } else if is_same(name, b"why") {
            Some(Word::Why)
        } else if is_same(name, b"show") {
            Some(Word::Show)
        } else if is_same(name, b"arches") {
            Some(Word::Arches)
        } else if is_same(name, b"check") {
            Some(Word::Check)
        } else if is_same(name, b"page") {
            Some(Word::Page { compares: false })
        } else {
            None
        }
    }

    /// Its name.
    pub fn name(self) -> &'static str
        ensures name { result.now ≡ word_name self }
    {
        match self {
            Word::Calls { .. } => "calls",
            Word::Filter { .. } => "filter",
            Word::When { .. } => "when",
            Word::Diff { .. } => "diff",
            Word::Expect => "expect",
            Word::Lint { .. } => "lint",
            Word::Replay { .. } => "replay",
            Word::Allow(_) => "allow",
            Word::Why => "why",
            Word::Show => "show",
            Word::Arches => "arches",
            Word::Check => "check",
            Word::Page { .. } => "page",
        }
    }

    // The same, where its filters are compared with an old one.
    pub(crate) fn with_old(self) -> Word
        ensures word { result ≡ with_old self }
    {
        match self {
            Word::Page { .. } => Word::Page { compares: true },
            _ => self,
        }
    }

    // The same, where filters are written in this form.
    pub(crate) fn with_target(self, target: Target) -> Word
        ensures word { result ≡ with_target target self }
    {
        match self {
            Word::Filter { smaller, .. } => Word::Filter { target, smaller },
            _ => self,
        }
    }

    // The same, where what allows calls is written as this.
    pub(crate) fn with_grant(self, grant: Grant) -> Word
        ensures word { result ≡ as_grant grant self }
    {
        match self {
            Word::Allow(asks) => Word::Allow(Allowing { grant, ..asks }),
            _ => self,
        }
    }

    // The same, where this runtime's own calls are allowed too.
    pub(crate) fn with_runtime(self, runtime: Runtime) -> Word
        ensures word { result ≡ for_runtime runtime self }
    {
        match self {
            Word::Allow(asks) => Word::Allow(Allowing {
                runtime: Some(runtime),
                ..asks
            }),
            _ => self,
        }
    }

    // The same with the option of its own that is named so.
    pub(crate) fn with_own_flag(self, name: &[u8]) -> Option<Word>
        ensures word { result ≡ with_own_flag self name.now }
    {
        match self {
            Word::Calls { .. } if is_same(name, b"--examples") => {
                Some(Word::Calls { examples: true })
            }
            Word::Filter { smaller, .. } if is_same(name, b"--raw") => Some(Word::Filter {
                target: Target::Raw,
                smaller,
            }),
            Word::Filter { target, .. } if is_same(name, b"--smaller") => Some(Word::Filter {
                target,
                smaller: true,
            }),
            Word::When { .. } if is_same(name, b"--dot") => Some(Word::When { dot: true }),
            Word::Diff { .. } if is_same(name, b"--stricter") => {
                Some(Word::Diff { stricter: true })
            }
            Word::Lint { .. } if is_same(name, b"--all") => Some(Word::Lint { all: true }),
            Word::Replay { .. } if is_same(name, b"--since-seccomp") => {
                Some(Word::Replay { since: true })
            }
            Word::Allow(asks) if is_same(name, b"--since-seccomp") => {
                Some(Word::Allow(Allowing {
                    since: true,
                    ..asks
                }))
            }
            _ => None,
        }
    }
}

/// An option that a word stands behind.
#[derive(Clone, Copy, Debug, PartialEq, Eq)]
pub enum Valued {
    /// The only calls that are asked of.
    Call,
    /// The calls that are allowed with the arguments of logs alone.
    Args,
    /// The only verdict that is looked for.
    Only,
    /// A capability that is held where profiles are to hold.
    Cap,
    /// The version of the kernel there.
    Kernel,
    /// The machine that their filters are for.
    Machine,
    /// The architecture whose calls are asked of.
    Arch,
    /// The form that filters are written in.
    To,
    /// What is written to allow calls.
    Grant,
    /// The runtime whose own calls are allowed too.
    For,
    /// The file with an old filter.
    Old,
}

impl Valued {
    pub(crate) fn name(self) -> &'static str
        ensures name { result.now ≡ valued_name self }
    {
        match self {
            Valued::Call => "--call",
            Valued::Args => "--args",
            Valued::Only => "--only",
            Valued::Cap => "--cap",
            Valued::Kernel => "--kernel",
            Valued::Machine => "--machine",
            Valued::Arch => "--arch",
            Valued::To | Valued::Grant => "--to",
            Valued::For => "--for",
            Valued::Old => "--old",
        }
    }

    // What is expected behind it.
    pub(crate) fn value_kind(self) -> &'static str
        ensures kind { result.now ≡ value_kind self }
    {
        match self {
            Valued::Call | Valued::Args => "a name or a number",
            Valued::Only => "a verdict as allow or errno/1",
            Valued::Cap | Valued::Machine | Valued::Arch => "a name",
            Valued::Kernel => "a version as 6.1",
            Valued::To => "raw, hex, lines, c, base64, bpf_asm or json",
            Valued::Grant => "policy or profile",
            Valued::For => "docker, crun, bwrap or systemd",
            Valued::Old => "a FILE",
        }
    }

    // The one of this word that is named so.
    pub(crate) fn named(word: Word, name: &[u8]) -> Option<Valued>
        ensures option { result ≡ valued_named word name.now }
    {
        if tells_calls(word) && is_same(name, b"--call") {
            Some(Valued::Call)
        } else if tells_calls(word) && is_same(name, b"--only") {
            Some(Valued::Only)
        } else if is_same(name, b"--cap") {
            Some(Valued::Cap)
        } else if is_same(name, b"--kernel") {
            Some(Valued::Kernel)
        } else if is_same(name, b"--machine") {
            Some(Valued::Machine)
        } else if tells_of_one(word) && is_same(name, b"--arch") {
            Some(Valued::Arch)
        } else if writes_filters(word) && is_same(name, b"--to") {
            Some(Valued::To)
        } else if allows(word) && is_same(name, b"--to") {
            Some(Valued::Grant)
        } else if allows(word) && is_same(name, b"--for") {
            Some(Valued::For)
        } else if allows(word) && is_same(name, b"--args") {
            Some(Valued::Args)
        } else if may_compare(word) && is_same(name, b"--old") {
            Some(Valued::Old)
        } else {
            None
        }
    }
}

// Whether it asks how words are used.
pub(crate) fn asks_help(text: &[u8]) -> bool
    ensures asks { result ≡ asks_help text.now }
{
    is_same(text, b"-h") || is_same(text, b"--help")
}

// Whether it asks which program this is.
pub(crate) fn asks_version(text: &[u8]) -> bool
    ensures asks { result ≡ asks_version text.now }
{
    is_same(text, b"--version")
}

// The options that a word has.
#[tactic(auto, unfolding(crate::specs::Asking::options_of))]
fn options_of(alloc: Global, word: Word) -> Result<Vec<&'static str>, AllocError>
    ensures options { IfOk result (λ options. map (λ name. name.now) options.items ≡ options_of word) }
{
    options_among(alloc, word, &OPTIONS)
}

fn options_among(
    alloc: Global,
    word: Word,
    names: &[&'static str],
) -> Result<Vec<&'static str>, AllocError>
    ensures options { IfOk result (λ options. map (λ name. name.now) options.items ≡ filter (has_option word) (map (λ name. name.now) names.now)) }
{
    let mut options = Vec::new(alloc);
    for name in names {
        if has_option(word, name.as_bytes()) {
            options.push(*name)?;
        }
    }
    Ok(options)
}

// The options of a word that may be meant by what is none of them.
pub(crate) fn options_meant(
    alloc: Global,
    word: Word,
    text: &[u8],
) -> Result<Vec<&'static str>, AllocError>
    ensures options { IfOk result (λ options. map (λ name. name.now) options.items ≡ options_meant word text.now) }
{
    if is_of_another(word, text) {
        return Ok(Vec::new(alloc));
    }
    options_of(alloc, word)
}

// Whether another word has this option, and this one has not.
#[tactic(auto, unfolding(crate::specs::Asking::is_of_another))]
fn is_of_another(word: Word, text: &[u8]) -> bool
    ensures another { result ≡ is_of_another word text.now }
{
    is_one_of(text, &OPTIONS) && !has_option(word, text)
}

fn is_one_of(text: &[u8], names: &[&'static str]) -> bool
    ensures among { result ≡ list_any (λ name. bytes_eq name.now text.now) names.now }
{
    names.iter().any(|name| is_same(name.as_bytes(), text))
}

fn has_option(word: Word, text: &[u8]) -> bool
    ensures has { result ≡ has_option word text.now }
{
    Valued::named(word, text).is_some()
        || word.with_own_flag(text).is_some()
        || is_shared(text)
        || tells_conditions(word) && is_same(text, b"--numbers")
        || writes_documents(word) && is_same(text, b"--json")
}

// Whether it is an option without a word behind it that all have.
fn is_shared(text: &[u8]) -> bool
    ensures shared { result ≡ list_any (bytes_eq text.now) shared_flags }
{
    is_same(text, b"--help")
        || is_same(text, b"--native")
        || is_same(text, b"--runc")
        || is_same(text, b"--strict")
}

fn tells_calls(word: Word) -> bool
    ensures tells { result ≡ tells_calls word }
{
    matches!(word, Word::Calls { .. } | Word::When { .. })
}

// Whether it writes conditions and calls, where constants may stand for numbers.
pub(crate) fn tells_conditions(word: Word) -> bool
    ensures tells { result ≡ tells_conditions word }
{
    matches!(
        word,
        Word::When { .. }
            | Word::Diff { .. }
            | Word::Expect
            | Word::Lint { .. }
            | Word::Allow(_)
            | Word::Page { .. }
    )
}

// Whether what it tells can be told by a JSON document.
pub(crate) fn writes_documents(word: Word) -> bool
    ensures writes { result ≡ writes_documents word }
{
    matches!(
        word,
        Word::Calls { .. }
            | Word::When { .. }
            | Word::Diff { .. }
            | Word::Expect
            | Word::Lint { .. }
            | Word::Replay { .. }
            | Word::Why
            | Word::Arches
    )
}

// Whether an old filter may stand before its FILE.
fn may_compare(word: Word) -> bool
    ensures may { result ≡ may_compare word }
{
    matches!(word, Word::Page { .. })
}

// Whether one does.
pub(crate) fn compares(word: Word) -> bool
    ensures compares { result ≡ compares word }
{
    matches!(word, Word::Page { compares: true })
}

fn allows(word: Word) -> bool
    ensures allows { result ≡ allows word }
{
    matches!(word, Word::Allow(_))
}

// Whether a runtime's own calls are allowed already.
pub(crate) fn has_runtime(word: Word) -> bool
    ensures has { result ≡ has_runtime word }
{
    match word {
        Word::Allow(asks) => asks.runtime.is_some(),
        _ => false,
    }
}

fn writes_filters(word: Word) -> bool
    ensures writes { result ≡ writes_filters word }
{
    matches!(word, Word::Filter { .. })
}

// Whether what it tells is of one architecture that may be named.
fn tells_of_one(word: Word) -> bool
    ensures tells { result ≡ tells_of_one word }
{
    !matches!(
        word,
        Word::Filter { .. } | Word::Lint { .. } | Word::Arches | Word::Page { .. }
    )
}
