//! The lines that refuse images, programs and filters.
ghost use Rattle.std.specs.Prelude.{◌≡◌, ◌≤◌, ◌+◌, ◌++◌};
ghost use Rattle.arrayvec.specs.ArrayString.{array_string_len};
ghost use Rattle.sk_engines.specs.Output.{refused, line};
ghost use Rattle.sk_engines.specs.Filters.{refusal_answer, refusal_text};
ghost use Rattle.sk_engines.specs.Judging.{no_image_text, check_fault_text};
ghost use Rattle.sk_engines.specs.Reply.{output_of};

use crate::filters::Refusal;
use crate::reply::{Reply, push_place};
use sk_filter::CheckFault;
use sk_insn::NoImage;
use sk_text::{Line, push_long};

/// Bytes that are no image are refused.
pub fn image_refused(why: NoImage) -> Reply
    ensures answer { output_of result ≡ refused (line (no_image_text why)) }
{
    let mut text = Line::new();
    push_no_image(&mut text, why);
    text.push_str("\n");
    Reply::Refused(text)
}

/// A program is refused.
pub fn program_refused(fault: CheckFault) -> Reply
    ensures answer { output_of result ≡ refused (line (check_fault_text fault)) }
{
    let mut text = Line::new();
    push_check_fault(&mut text, fault);
    text.push_str("\n");
    Reply::Refused(text)
}

/// The filter with this number, from 0 on, is refused.
pub fn refusal_reply(number: usize, refusal: Refusal) -> Reply
    ensures answer { output_of result ≡ refusal_answer (number, refusal) }
{
    let mut text = Line::new();
    push_place(&mut text, "filter ", number);
    text.push_str(" ");
    push_refusal(&mut text, refusal);
    text.push_str("\n");
    Reply::Refused(text)
}

fn push_refusal(text: &mut Line, refusal: Refusal)
    requires room { array_string_len text.old + 78 ≤ 128 }
    ensures text { text.new.bytes ≡ text.old.bytes ++ refusal_text refusal }
    ensures growth { array_string_len text.new ≤ array_string_len text.old + 78 }
{
    match refusal {
        Refusal::Image(why) => push_no_image(text, why),
        Refusal::Program(fault) => push_check_fault(text, fault),
        Refusal::PathLimit => text.push_str("refused path limit"),
    }
}

/// Appends why bytes are no image.
pub fn push_no_image(text: &mut Line, why: NoImage)
    requires room { array_string_len text.old + 64 ≤ 128 }
    ensures text { text.new.bytes ≡ text.old.bytes ++ no_image_text why }
    ensures growth { array_string_len text.new ≤ array_string_len text.old + 64 }
{
    match why {
        NoImage::Ragged => text.push_str("refused image ragged"),
        NoImage::Empty => text.push_str("refused image empty"),
        NoImage::TooLong => text.push_str("refused image too long"),
    }
}

/// Appends why a program is refused.
pub fn push_check_fault(text: &mut Line, fault: CheckFault)
    requires room { array_string_len text.old + 78 ≤ 128 }
    ensures text { text.new.bytes ≡ text.old.bytes ++ check_fault_text fault }
    ensures growth { array_string_len text.new ≤ array_string_len text.old + 78 }
{
    match fault {
        CheckFault::Empty => text.push_str("refused 1 empty"),
        CheckFault::TooLong => text.push_str("refused 2 too long"),
        CheckFault::Code { at } => push_place(text, "refused 3 code at ", at),
        CheckFault::Load { at } => push_place(text, "refused 4 load at ", at),
        CheckFault::DivZero { at } => push_place(text, "refused 5 divzero at ", at),
        CheckFault::Shift { at } => push_place(text, "refused 6 shift at ", at),
        CheckFault::Word { at } => push_place(text, "refused 7 word at ", at),
        CheckFault::Jump { at } => push_place(text, "refused 8 jump at ", at),
        CheckFault::NoReturn => text.push_str("refused 9 no return"),
        CheckFault::Unstored { at, word } => {
            push_place(text, "refused 10 unstored at ", at);
            text.push_str(" word ");
            push_long(text, u64::from(word));
        }
    }
}
