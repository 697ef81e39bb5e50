//! What is asked by the words behind `ask WORD`.
ghost use Rattle.std.specs.Prelude.{◌≡◌, ◌≤◌, ◌++◌, ◌∷◌, [], IfOk, Ok, codes, length, string_bytes, map};
ghost use Rattle.std.specs.List.{before_first, after_first, slice_split};
ghost use Rattle.sk_profile_json.specs.Capabilities.{capability};
ghost use Rattle.sk_profile_json.specs.Machines.{machine_named};
ghost use Rattle.sk_ask.specs.Asking.{asked_of, nothing_asked, ends_options, with_names, with_word, with_free, with_joined_or_flag, with_joined, is_equals, with_valued, with_value, with_call, with_calls, with_caps, with_only, with_each_cap, is_comma, with_form, with_grant, with_runtime, with_kernel, with_machine, with_architecture, with_flag, with_name, is_given, valued_named, expected_line, is_option, no_capability_line, no_machine_line, no_option_line, word_name};
ghost use Rattle.sk_ask.specs.Nearest.{architecture_names, of_unknown, see_help};
ghost use Rattle.sk_ask.specs.OtherNames.{architecture_meant};
ghost use Rattle.sk_ask.specs.Asked.{question_of, Asks, HasNames};
ghost use Rattle.sk_ask.specs.declared.word.Valued.TheVariants.{Old};

use crate::complete::{ended, is_turned, turned_line};
use crate::nearest::{
    SEE_CAPABILITIES, SEE_HELP, architecture_names, capability_names, machine_names, of_unknown,
};
use crate::only::Sought;
use crate::other_names::{architecture_meant, kernel_meant};
use crate::runtime::Runtime;
use crate::target::{Grant, Target};
use crate::word::{
    Valued, Word, asks_help, compares, has_runtime, options_meant, tells_conditions,
    writes_documents,
};
use crate::{Trouble, of_word};
use sk_names::Architecture;
use sk_profile_json::{Kernel, Machine, capability};
use sk_text::is_same;
use std::alloc::{AllocError, Global};

/// What a word and those behind it ask.
#[derive(Drop)]
pub struct Asked {
    pub word: Word,
    /// The words behind each `--call`, or `--args`.
    pub calls: Vec<String>,
    /// The verdicts behind each `--only`.
    pub only: Vec<Sought>,
    /// The names of the capabilities behind each `--cap`.
    pub caps: Vec<&'static str>,
    /// The version behind `--kernel`.
    pub kernel: Option<Kernel>,
    /// The machine behind `--machine`.
    pub machine: Option<Machine>,
    /// The architecture behind `--arch`.
    pub arch: Option<Architecture>,
    /// The last word was this option.
    pub awaits: Option<Valued>,
    /// Numbers are wanted, and no constants.
    pub numbers: bool,
    /// A JSON document is wanted, and no text.
    pub json: bool,
    /// The machine's own architecture stands alone.
    pub native: bool,
    /// runc attaches the filter.
    pub runc: bool,
    /// What is passed over in a profile is trouble.
    pub strict: bool,
    pub help: bool,
    /// The names of the files, or what else its names stand for.
    pub names: Vec<String>,
}

/// The first name, and those behind it.
pub fn first_name(names: &[String]) -> (&str, &[String])
    requires named { 1 ≤ length names.now }
    ensures names { map string_bytes names.now ≡ result.0.now ∷ map string_bytes result.1.now }
{
    (names[0].as_str(), &names[1..])
}

/// What the words behind this one ask, or the line that refuses them.
pub fn asked_in(alloc: Global, word: Word, words: &[String]) -> Result<Asked, Trouble>
    ensures exact { Asks result (asked_of (nothing_asked word) (map string_bytes words.now)) }
    ensures named { IfOk result HasNames }
{
    let mut asked = Asked {
        word,
        calls: Vec::new(alloc),
        only: Vec::new(alloc),
        caps: Vec::new(alloc),
        kernel: None,
        machine: None,
        arch: None,
        awaits: None,
        numbers: false,
        json: false,
        native: false,
        runc: false,
        strict: false,
        help: false,
        names: Vec::new(alloc),
    };
    let mut rest = words;
    while let Some((text, left)) = rest.split_first() {
        if ends_options(&asked, text.as_bytes()) {
            return ended(alloc, with_names(asked, left)?);
        }
        asked = with_word(alloc, asked, text)?;
        rest = left;
    }
    ended(alloc, asked)
}

// Whether all words behind this one are names.
fn ends_options(asked: &Asked, text: &[u8]) -> bool
    ensures ends { result ≡ ends_options (question_of asked.now) text.now }
{
    asked.awaits.is_none() && is_same(text, b"--")
}

fn with_names(asked: Asked, words: &[String]) -> Result<Asked, AllocError>
    ensures exact { IfOk result (λ more. question_of more ≡ with_names (question_of asked) (map string_bytes words.now)) }
{
    let names = with_all(asked.names, words)?;
    Ok(Asked { names, ..asked })
}

fn with_all(names: Vec<String>, words: &[String]) -> Result<Vec<String>, AllocError>
    ensures all { IfOk result (λ all. map string_bytes all.items ≡ map string_bytes names.items ++ map string_bytes words.now) }
{
    let mut all = names;
    let mut rest = words;
    while let Some((word, left)) = rest.split_first() {
        all.push(word.clone()?)?;
        rest = left;
    }
    Ok(all)
}

fn with_word(alloc: Global, asked: Asked, text: &String) -> Result<Asked, Trouble>
    ensures exact { Asks result (with_word (question_of asked) (string_bytes text.now)) }
{
    match asked.awaits {
        Some(option) => with_value(alloc, option, asked, text.as_str()),
        None => with_free(alloc, asked, text),
    }
}

// The word behind an option.
fn with_value(alloc: Global, option: Valued, asked: Asked, text: &str) -> Result<Asked, Trouble>
    ensures exact { Asks result (with_value option (question_of asked) text.now) }
{
    match option {
        Valued::Call | Valued::Args => Ok(with_calls(alloc, asked, text)?),
        Valued::Only => with_only(alloc, asked, Sought::named(text.as_bytes())),
        Valued::Cap => with_each_cap(alloc, asked, text),
        Valued::Kernel => with_kernel(alloc, asked, kernel_meant(text.as_bytes())),
        Valued::Machine => with_machine(alloc, asked, text.as_bytes()),
        Valued::Arch => with_architecture(alloc, asked, text.as_bytes()),
        Valued::To => with_form(alloc, asked, Target::named(text.as_bytes())),
        Valued::Grant => with_grant(alloc, asked, Grant::named(text.as_bytes())),
        Valued::For => with_runtime(alloc, asked, Runtime::named(text.as_bytes())),
        Valued::Old => Ok(with_old(alloc, asked, text)?),
    }
}

// An old filter, whose file stands before the others.
fn with_old(alloc: Global, asked: Asked, text: &str) -> Result<Asked, AllocError>
    ensures exact { IfOk result (λ more. Ok (question_of more) ≡ with_value Old (question_of asked) text.now) }
{
    let mut asked = Asked {
        word: asked.word.with_old(),
        awaits: None,
        ..asked
    };
    let old = String::from_str(alloc, text)?;
    asked.names.insert(0, old)?;
    Ok(asked)
}

// The calls between commas.
#[tactic(auto, using(crate::proofs::Commas::first_part, crate::proofs::Commas::only_part, crate::proofs::Commas::is_shorter))]
fn with_calls(alloc: Global, asked: Asked, text: &str) -> Result<Asked, AllocError>
    ensures exact { IfOk result (λ more. question_of more ≡ with_calls (question_of asked) (slice_split is_comma text.now)) }
{
    let mut held = asked;
    let mut rest = text;
    while let Some((name, left)) = rest.split_once(',') {
        held = with_call(alloc, held, name)?;
        rest = left;
    }
    with_call(alloc, held, rest)
}

fn with_call(alloc: Global, asked: Asked, text: &str) -> Result<Asked, AllocError>
    ensures exact { IfOk result (λ more. question_of more ≡ with_call (question_of asked) text.now) }
{
    let mut asked = Asked {
        awaits: None,
        ..asked
    };
    let call = String::from_str(alloc, text)?;
    asked.calls.push(call)?;
    Ok(asked)
}

fn with_only(alloc: Global, asked: Asked, sought: Option<Sought>) -> Result<Asked, Trouble>
    ensures exact { Asks result (with_only (question_of asked) sought) }
{
    let Some(sought) = sought else {
        return Err(Trouble::Refused(expected_line(alloc, asked.word, Valued::Only)?));
    };
    let mut asked = Asked {
        awaits: None,
        ..asked
    };
    asked.only.push(sought)?;
    Ok(asked)
}

// The capabilities between commas.
#[tactic(auto, using(crate::proofs::Commas::first_part, crate::proofs::Commas::only_part, crate::proofs::Commas::is_shorter, crate::proofs::Commas::last_one))]
fn with_each_cap(alloc: Global, asked: Asked, text: &str) -> Result<Asked, Trouble>
    ensures exact { Asks result (with_each_cap (question_of asked) (slice_split is_comma text.now)) }
{
    let mut held = asked;
    let mut rest = text;
    while let Some((name, left)) = rest.split_once(',') {
        held = with_caps(alloc, held, name.as_bytes())?;
        rest = left;
    }
    with_caps(alloc, held, rest.as_bytes())
}

fn with_caps(alloc: Global, asked: Asked, text: &[u8]) -> Result<Asked, Trouble>
    ensures exact { Asks result (with_caps (question_of asked) text.now (capability text.now)) }
{
    let Some(names) = capability(text) else {
        return Err(Trouble::Refused(no_capability_line(alloc, asked.word, text)?));
    };
    let mut asked = Asked {
        awaits: None,
        ..asked
    };
    asked.caps.extend_from_slice(names)?;
    Ok(asked)
}

// What is said of a word that names no capability.
fn no_capability_line(alloc: Global, word: Word, text: &[u8]) -> Result<Vec<u8>, AllocError>
    ensures line { IfOk result (λ line. line.items ≡ no_capability_line word text.now) }
{
    let what = format!(in alloc; "{}: no capability is named ", word.name())?;
    let sought = text.to_ascii_uppercase(alloc)?;
    let names = capability_names(alloc)?;
    of_unknown(alloc, &what, text, &sought, &names, SEE_CAPABILITIES)
}

fn with_kernel(alloc: Global, asked: Asked, kernel: Option<Kernel>) -> Result<Asked, Trouble>
    ensures exact { Asks result (with_kernel (question_of asked) kernel) }
{
    if kernel.is_none() {
        return Err(Trouble::Refused(expected_line(alloc, asked.word, Valued::Kernel)?));
    }
    Ok(Asked {
        kernel,
        awaits: None,
        ..asked
    })
}

fn with_machine(alloc: Global, asked: Asked, text: &[u8]) -> Result<Asked, Trouble>
    ensures exact { Asks result (with_machine (question_of asked) text.now (machine_named text.now)) }
{
    let machine = Machine::named(text);
    if machine.is_none() {
        return Err(Trouble::Refused(no_machine_line(alloc, asked.word, text)?));
    }
    Ok(Asked {
        machine,
        awaits: None,
        ..asked
    })
}

// What is said of a word that names no machine.
fn no_machine_line(alloc: Global, word: Word, text: &[u8]) -> Result<Vec<u8>, AllocError>
    ensures line { IfOk result (λ line. line.items ≡ no_machine_line word text.now) }
{
    if is_turned(Architecture::named(text)) {
        return turned_line(alloc, word, b"--machine s390x");
    }
    let what = format!(in alloc; "{}: no machine is named ", word.name())?;
    of_unknown(alloc, &what, text, text, &machine_names(alloc)?, SEE_HELP)
}

fn with_architecture(alloc: Global, asked: Asked, text: &[u8]) -> Result<Asked, Trouble>
    ensures exact { Asks result (with_architecture (question_of asked) text.now (architecture_meant text.now)) }
{
    let arch = architecture_meant(text);
    if arch.is_none() {
        return Err(Trouble::Refused(no_architecture_line(alloc, asked.word, text)?));
    }
    Ok(Asked {
        arch,
        awaits: None,
        ..asked
    })
}

// What is said of a word that names no architecture.
fn no_architecture_line(alloc: Global, word: Word, text: &[u8]) -> Result<Vec<u8>, AllocError>
    ensures line { IfOk result (λ line.
        line.items ≡ of_unknown (word_name word ++ codes ": no architecture is named ") text.now text.now architecture_names see_help) }
{
    let what = format!(in alloc; "{}: no architecture is named ", word.name())?;
    let names = architecture_names(alloc)?;
    of_unknown(alloc, &what, text, text, &names, SEE_HELP)
}

fn with_form(alloc: Global, asked: Asked, target: Option<Target>) -> Result<Asked, Trouble>
    ensures exact { Asks result (with_form (question_of asked) target) }
{
    let Some(target) = target else {
        return Err(Trouble::Refused(expected_line(alloc, asked.word, Valued::To)?));
    };
    Ok(Asked {
        word: asked.word.with_target(target),
        awaits: None,
        ..asked
    })
}

fn with_grant(alloc: Global, asked: Asked, grant: Option<Grant>) -> Result<Asked, Trouble>
    ensures exact { Asks result (with_grant (question_of asked) grant) }
{
    let Some(grant) = grant else {
        return Err(Trouble::Refused(expected_line(alloc, asked.word, Valued::Grant)?));
    };
    Ok(Asked {
        word: asked.word.with_grant(grant),
        awaits: None,
        ..asked
    })
}

fn with_runtime(alloc: Global, asked: Asked, runtime: Option<Runtime>) -> Result<Asked, Trouble>
    ensures exact { Asks result (with_runtime (question_of asked) runtime) }
{
    let Some(runtime) = runtime else {
        return Err(Trouble::Refused(expected_line(alloc, asked.word, Valued::For)?));
    };
    Ok(Asked {
        word: asked.word.with_runtime(runtime),
        awaits: None,
        ..asked
    })
}

// A word that no option awaits.
fn with_free(alloc: Global, asked: Asked, text: &String) -> Result<Asked, Trouble>
    ensures exact { Asks result (with_free (question_of asked) (string_bytes text.now)) }
{
    let bytes = text.as_bytes();
    if asks_help(bytes) {
        return Ok(Asked {
            help: true,
            ..asked
        });
    }
    match Valued::named(asked.word, bytes) {
        Some(option) => with_valued(alloc, option, asked),
        None => with_joined_or_flag(alloc, asked, text),
    }
}

fn with_joined_or_flag(alloc: Global, asked: Asked, text: &String) -> Result<Asked, Trouble>
    ensures exact { Asks result (with_joined_or_flag (question_of asked) (string_bytes text.now)
        (valued_named asked.word (before_first is_equals (string_bytes text.now)))) }
{
    match Valued::named(asked.word, before_equals(text).as_bytes()) {
        Some(option) => with_joined(alloc, option, asked, behind_equals(text)),
        None => with_flag(alloc, asked, text),
    }
}

// An option and the word that is joined to it.
fn with_joined(alloc: Global, option: Valued, asked: Asked, value: &str) -> Result<Asked, Trouble>
    ensures exact { Asks result (with_joined option (question_of asked) value.now) }
{
    let more = with_valued(alloc, option, asked)?;
    with_value(alloc, option, more, value)
}

// What stands before the first `=`.
fn before_equals(text: &str) -> &str
    ensures before { result.now ≡ before_first is_equals text.now }
{
    match text.split_once('=') {
        Some((before, _)) => before,
        None => text,
    }
}

// What stands behind the first `=`.
fn behind_equals(text: &str) -> &str
    ensures behind { result.now ≡ after_first is_equals text.now }
{
    match text.split_once('=') {
        Some((_, behind)) => behind,
        None => "",
    }
}

fn with_valued(alloc: Global, option: Valued, asked: Asked) -> Result<Asked, Trouble>
    ensures exact { Asks result (with_valued option (question_of asked)) }
{
    if is_given(option, &asked) {
        let what = format!(in alloc; "{}: given twice: ", asked.word.name())?;
        return Err(Trouble::Refused(of_word(alloc, &what, option.name().as_bytes())?));
    }
    Ok(Asked {
        awaits: Some(option),
        ..asked
    })
}

// Whether it is there, and may not come again.
fn is_given(option: Valued, asked: &Asked) -> bool
    ensures given { result ≡ is_given option (question_of asked.now) }
{
    match option {
        Valued::Call | Valued::Args | Valued::Only | Valued::Cap => false,
        Valued::Kernel => asked.kernel.is_some(),
        Valued::Machine => asked.machine.is_some(),
        Valued::Arch => asked.arch.is_some(),
        Valued::To | Valued::Grant => false,
        Valued::For => has_runtime(asked.word),
        Valued::Old => compares(asked.word),
    }
}

fn with_flag(alloc: Global, asked: Asked, text: &String) -> Result<Asked, Trouble>
    ensures exact { Asks result (with_flag (question_of asked) (string_bytes text.now)) }
{
    if is_same(text.as_bytes(), b"--native") {
        return Ok(Asked {
            native: true,
            ..asked
        });
    }
    if is_same(text.as_bytes(), b"--runc") {
        return Ok(Asked {
            runc: true,
            ..asked
        });
    }
    if is_same(text.as_bytes(), b"--strict") {
        return Ok(Asked {
            strict: true,
            ..asked
        });
    }
    if tells_conditions(asked.word) && is_same(text.as_bytes(), b"--numbers") {
        return Ok(Asked {
            numbers: true,
            ..asked
        });
    }
    if writes_documents(asked.word) && is_same(text.as_bytes(), b"--json") {
        return Ok(Asked {
            json: true,
            ..asked
        });
    }
    match asked.word.with_own_flag(text.as_bytes()) {
        Some(word) => Ok(Asked { word, ..asked }),
        None => with_name(alloc, asked, text),
    }
}

fn with_name(alloc: Global, asked: Asked, text: &String) -> Result<Asked, Trouble>
    ensures exact { Asks result (with_name (question_of asked) (string_bytes text.now)) }
{
    if is_option(text.as_bytes()) {
        return Err(Trouble::Refused(no_option_line(alloc, asked.word, text.as_str())?));
    }
    let mut asked = asked;
    asked.names.push(text.clone()?)?;
    Ok(asked)
}

// The line that says that this is no option of a word.
fn no_option_line(alloc: Global, word: Word, text: &str) -> Result<Vec<u8>, AllocError>
    ensures line { IfOk result (λ line. line.items ≡ no_option_line word text.now (before_first is_equals text.now)) }
{
    let what = format!(in alloc; "{}: no option is named ", word.name())?;
    let elsewhere = format!(in alloc; "; see ask {} --help", word.name())?;
    let sought = before_equals(text).as_bytes();
    let names = options_meant(alloc, word, sought)?;
    of_unknown(alloc, &what, text.as_bytes(), sought, &names, &elsewhere)
}

// A word that begins with `-` and is more than that.
fn is_option(word: &[u8]) -> bool
    ensures exact { result ≡ is_option word.now }
{
    word.first() == Some(&b'-') && word.len() > 1
}

// The line that says what is expected behind an option.
pub(crate) fn expected_line(
    alloc: Global,
    word: Word,
    option: Valued,
) -> Result<Vec<u8>, AllocError>
    ensures line { IfOk result (λ line. line.items ≡ expected_line word option) }
{
    let what = format!(in alloc; "{}: expected {} behind ", word.name(), option.value_kind())?;
    of_word(alloc, &what, option.name().as_bytes())
}
