//! Lines as statements.
ghost use Rattle.std.specs.Prelude.{◌≡◌, ◌∷◌};
ghost use Rattle.std.specs.Option.{option_map};
ghost use Rattle.sk_text.specs.Lines.{words_of};
ghost use Rattle.sk_asm.specs.Grammar.{Plain, branching, insn, instruction_said, raw, shaped, spoken, statement_of};
ghost use Rattle.sk_asm.specs.Passes.{checked};
ghost use Rattle.sk_asm.specs.Faults.{Answers};
ghost use Rattle.sk_asm.specs.Views.{said, statement};
ghost use Rattle.sk_asm.specs.declared.shape.Shape.TheVariants.{Target, Compare, CompareIndex};

use crate::fault::AsmFault;
use crate::shape::Shape;
use crate::statement::{Jump, Said};
use crate::value::{destination, label, returned, u8_of, u16_of, u32_of};
use sk_insn::{Insn, Operation};
use sk_text::{
    Words, four_words, is_printable, is_same, no_word, one_word, three_words, two_words,
};

// The most bytes that a line may have.
pub(crate) const LONGEST_LINE: usize = 255;

// What line `n` says, if nothing is wrong with it by itself.
#[tactic(auto, unfolding(crate::specs::Passes::checked))]
pub(crate) fn check_line(n: usize, line: &[u8]) -> Result<Said<'_>, AsmFault>
    ensures exact { Answers said result (checked n line.now) }
{
    if line.len() > LONGEST_LINE {
        return Err(AsmFault::TooLong { n });
    }
    if !is_printable(line) {
        return Err(AsmFault::Line { n });
    }
    parse_line(line).ok_or(AsmFault::Line { n })
}

#[tactic(auto, unfolding(crate::specs::Grammar::statement_of))]
fn parse_line(line: &[u8]) -> Option<Said<'_>>
    ensures exact { option_map said result ≡ statement_of line.now }
{
    let mut words = Words(line);
    let Some(first) = words.next() else {
        return Some(Said::Silent);
    };
    if first.first() == Some(&b';') {
        return Some(Said::Silent);
    }
    parse_words(first, words)
}

#[tactic(auto, unfolding(crate::specs::Grammar::spoken))]
fn parse_words<'a>(first: &'a [u8], words: Words<'a>) -> Option<Said<'a>>
    ensures exact { option_map said result ≡ spoken (first.now ∷ words_of words.entry.0.now) }
{
    match label(first) {
        Some(name) => {
            no_word(words)?;
            Some(Said::Label(name))
        }
        None => parse_instruction(first, words),
    }
}

#[tactic(auto, unfolding(crate::specs::Grammar::instruction_said))]
fn parse_instruction<'a>(first: &'a [u8], words: Words<'a>) -> Option<Said<'a>>
    ensures exact { option_map said result ≡ instruction_said first.now (words_of words.entry.0.now) }
{
    if is_same(first, b".insn") {
        return parse_fields(words);
    }
    let operation = Operation::named(first)?;
    parse_form(Shape::of(operation), operation.code(), words)
}

#[tactic(auto, unfolding(crate::specs::Grammar::shaped))]
fn parse_form<'a>(shape: Shape, code: u16, words: Words<'a>) -> Option<Said<'a>>
    ensures exact { option_map said result ≡ shaped shape code (words_of words.entry.0.now) }
{
    match shape {
        Shape::Bare => {
            no_word(words)?;
            Some(plain(code, 0))
        }
        Shape::Number => {
            let k = u32_of(one_word(words)?)?;
            Some(plain(code, k))
        }
        Shape::Action => {
            let k = returned(one_word(words)?)?;
            Some(plain(code, k))
        }
        Shape::Target => Some(Said::Jump(parse_jump(code, words)?)),
        Shape::Compare => Some(Said::Jump(parse_comparison(code, words)?)),
        Shape::CompareIndex => Some(Said::Jump(parse_index_comparison(code, words)?)),
    }
}

fn plain<'a>(code: u16, k: u32) -> Said<'a>
    ensures exact { said result ≡ Plain (insn code 0 0 k) }
{
    Said::Plain(Insn {
        code,
        jt: 0,
        jf: 0,
        k,
    })
}

#[tactic(auto, unfolding(crate::specs::Grammar::shaped))]
fn parse_jump<'a>(code: u16, words: Words<'a>) -> Option<Jump<'a>>
    ensures exact { option_map statement result ≡ shaped Target code (words_of words.entry.0.now) }
{
    let (k, label) = destination::<u32>(one_word(words)?)?;
    let insn = Insn {
        code,
        jt: 0,
        jf: 0,
        k,
    };
    Some(Jump::Always(insn, label))
}

#[tactic(auto, unfolding(crate::specs::Grammar::shaped))]
fn parse_comparison<'a>(code: u16, words: Words<'a>) -> Option<Jump<'a>>
    ensures exact { option_map statement result ≡ shaped Compare code (words_of words.entry.0.now) }
{
    let (k, jt, jf) = three_words(words)?;
    branch(code, u32_of(k)?, jt, jf)
}

#[tactic(auto, unfolding(crate::specs::Grammar::shaped))]
fn parse_index_comparison<'a>(code: u16, words: Words<'a>) -> Option<Jump<'a>>
    ensures exact { option_map statement result ≡ shaped CompareIndex code (words_of words.entry.0.now) }
{
    let (jt, jf) = two_words(words)?;
    branch(code, 0, jt, jf)
}

#[tactic(auto, unfolding(crate::specs::Grammar::branching))]
fn branch<'a>(code: u16, k: u32, jt: &'a [u8], jf: &'a [u8]) -> Option<Jump<'a>>
    ensures exact { option_map statement result ≡ branching code k jt.now jf.now }
{
    let (jt, first) = destination::<u8>(jt)?;
    let (jf, second) = destination::<u8>(jf)?;
    Some(Jump::Branch(Insn { code, jt, jf, k }, first, second))
}

#[tactic(auto, unfolding(crate::specs::Grammar::raw))]
fn parse_fields<'a>(words: Words<'a>) -> Option<Said<'a>>
    ensures exact { option_map said result ≡ raw (words_of words.entry.0.now) }
{
    let (code, jt, jf, k) = four_words(words)?;
    let code = u16_of(code)?;
    let jt = u8_of(jt)?;
    let jf = u8_of(jf)?;
    let k = u32_of(k)?;
    Some(Said::Plain(Insn { code, jt, jf, k }))
}
