//! What is said of a file that is refused.
ghost use Rattle.std.specs.Prelude.{◌≡◌, ◌++◌, IfOk, OnOk, codes, string_bytes};
ghost use Rattle.std.specs.Fmt.{decimal};
ghost use Rattle.sk_ask.specs.Texts.{fault_text, at_line, at_instruction, line_fault_text, refusal_text, no_image_text, check_fault_text};

use crate::fault::{FileFault, LineFault};
use sk_engines::Refusal;
use sk_filter::CheckFault;
use sk_insn::NoImage;
use std::alloc::{AllocError, Global};
use std::fmt::Write;

/// What is wrong with a file, and what was expected, without its name and without a line's end.
pub fn fault_text(alloc: Global, fault: FileFault) -> Result<String, AllocError>
    ensures text { IfOk result (λ text. string_bytes text ≡ fault_text fault) }
{
    let mut text = String::new(alloc);
    match fault {
        FileFault::NoFilter => text.push_str(
            "holds no filter: expected bytes of struct sock_filter, hexadecimal digits, lines filter HEX, another form of a filter, a policy, or a profile in JSON",
        )?,
        FileFault::OddDigits => text.push_str(
            "has an odd number of hexadecimal digits: expected two for each byte",
        )?,
        FileFault::Line(line, fault) => {
            push_line(&mut text, Some(line))?;
            text.push_str(line_fault_text(fault))?;
        }
        FileFault::TooMany(line) => {
            push_line(&mut text, line)?;
            text.push_str("one filter too many: expected at most 32 in all files")?;
        }
        FileFault::Filter(line, why) => {
            push_line(&mut text, line)?;
            push_refusal(&mut text, why)?;
        }
    }
    Ok(text)
}

/// Puts behind a text in which line of a file something stands, if it is one of several.
pub(crate) fn push_line(text: &mut String, line: Option<usize>) -> Result<(), AllocError>
    ensures text { OnOk result (string_bytes text.new ≡ string_bytes text.old ++ at_line line) }
{
    match line {
        Some(line) => write!(text, "line {line}: "),
        None => Ok(()),
    }
}

fn line_fault_text(fault: LineFault) -> &'static str
    ensures text { result.now ≡ line_fault_text fault }
{
    match fault {
        LineFault::UnknownWord => "expected filter HEX",
        LineFault::NotHexadecimal => "expected hexadecimal digits behind filter, two for each byte",
    }
}

fn push_refusal(text: &mut String, why: Refusal) -> Result<(), AllocError>
    ensures text { OnOk result (string_bytes text.new ≡ string_bytes text.old ++ refusal_text why) }
{
    match why {
        Refusal::Image(why) => text.push_str(no_image_text(why)),
        Refusal::Program(fault) => push_check_fault(text, fault),
        Refusal::PathLimit => text.push_str(
            "the filters are too long together: expected at most 32768 instructions, with 4 more for each filter before this one",
        ),
    }
}

fn no_image_text(why: NoImage) -> &'static str
    ensures text { result.now ≡ no_image_text why }
{
    match why {
        NoImage::Ragged => {
            "the length is no multiple of 8 bytes: expected instructions as struct sock_filter has them"
        }
        NoImage::Empty => "there is no instruction",
        NoImage::TooLong => "there are more than 4096 instructions",
    }
}

fn push_check_fault(text: &mut String, fault: CheckFault) -> Result<(), AllocError>
    ensures text { OnOk result (string_bytes text.new ≡ string_bytes text.old ++ check_fault_text fault) }
{
    match fault {
        CheckFault::Empty => text.push_str("there is no instruction"),
        CheckFault::TooLong => text.push_str("there are more than 4096 instructions"),
        CheckFault::Code { at } => {
            push_place(
                text,
                at,
                "the code is none of the 41 that seccomp(2) permits",
            )
        }
        CheckFault::Load { at } => push_place(
            text,
            at,
            "no word of struct seccomp_data begins at k: expected a multiple of 4 below 64",
        ),
        CheckFault::DivZero { at } => push_place(text, at, "division by the constant 0"),
        CheckFault::Shift { at } => push_place(text, at, "shift by a constant of 32 or more"),
        CheckFault::Word { at } => {
            push_place(text, at, "there are 16 scratch words: expected k below 16")
        }
        CheckFault::Jump { at } => push_place(text, at, "a jump past the last instruction"),
        CheckFault::NoReturn => text.push_str("the last instruction is no return"),
        CheckFault::Unstored { at, word } => {
            push_place(text, at, "loads scratch word ")?;
            write!(text, "{word}, which some path there does not store")
        }
    }
}

fn push_place(text: &mut String, place: usize, what: &str) -> Result<(), AllocError>
    ensures text { OnOk result (string_bytes text.new ≡ string_bytes text.old ++ at_instruction place what.now) }
{
    write!(text, "instruction {place}: {what}")
}
