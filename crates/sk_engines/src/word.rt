//! The one word that says what the program does.
ghost use Rattle.std.specs.Prelude.{◌≡◌, ◌≢◌, IfOk, length, map, option_map, string_bytes};
ghost use Rattle.clap.specs.Simple.{app_of};
ghost use Rattle.sk_engines.specs.Parser.{program, with_word, wordless};
ghost use Rattle.sk_engines.specs.Words.{word_of, word_named};

use clap::Command;
use clap::error::ErrorKind;
use std::alloc::{AllocError, Global};

/// What the program does.
#[derive(Clone, Copy, Debug, PartialEq, Eq)]
pub enum Word {
    /// Runs a scenario.
    Run,
    /// Answers of filters.
    Filters(FilterWord),
}

/// What it does with filters.
#[derive(Clone, Copy, Debug, PartialEq, Eq)]
pub enum FilterWord {
    Check,
    Eval,
    Asm,
    List,
}

/// What these words say, or none where they are not one word that says something.
pub fn word_in(alloc: Global, words: &[String]) -> Result<Option<Word>, AllocError>
    ensures exact { IfOk result (λ word. word ≡ word_of (map string_bytes words.now)) }
    ensures single { length words.now ≢ 1 → result ≡ Ok None }
{
    if words.len() != 1 {
        return Ok(None);
    }
    match parser(alloc)?.try_get_matches_from(words) {
        Ok(matches) => Ok(matches.subcommand_name().and_then(named)),
        Err(error) => match error.kind() {
            ErrorKind::OutOfMemory => Err(AllocError),
            _ => Ok(None),
        },
    }
}

fn parser<'a>(alloc: Global) -> Result<Command<'a>, AllocError>
    ensures words { IfOk result (λ parser. app_of parser ≡ program) }
{
    let with_run = with_word(alloc, wordless(alloc), "run")?;
    let with_check = with_word(alloc, with_run, "check")?;
    let with_eval = with_word(alloc, with_check, "eval")?;
    let with_asm = with_word(alloc, with_eval, "asm")?;
    with_word(alloc, with_asm, "list")
}

fn wordless<'a>(alloc: Global) -> Command<'a>
    ensures wordless { app_of result ≡ wordless }
{
    Command::new(alloc, "skern")
        .no_binary_name(true)
        .disable_help_flag(true)
        .disable_help_subcommand(true)
}

fn with_word<'a>(
    alloc: Global,
    program: Command<'a>,
    word: &'a str,
) -> Result<Command<'a>, AllocError>
    ensures word { IfOk result (λ wider. app_of wider ≡ with_word (app_of program.entry) word.now) }
{
    program.subcommand(Command::new(alloc, word))
}

#[tactic(auto, unfolding(crate::specs::Words::word_named))]
fn named(name: &str) -> Option<Word>
    ensures exact { result ≡ word_named name.now }
{
    match name {
        "run" => Some(Word::Run),
        "check" => Some(Word::Filters(FilterWord::Check)),
        "eval" => Some(Word::Filters(FilterWord::Eval)),
        "asm" => Some(Word::Filters(FilterWord::Asm)),
        "list" => Some(Word::Filters(FilterWord::List)),
        _ => None,
    }
}
