//! `skern check`: whether an image is a valid program, and its first fault where it is not.
ghost use Rattle.std.specs.Prelude.{◌≡◌, ◌++◌, codes};
ghost use Rattle.std.specs.Fmt.{decimal};
ghost use Rattle.sk_engines.specs.Output.{done, line};
ghost use Rattle.sk_engines.specs.CheckCommand.{program_answer};
ghost use Rattle.sk_engines.specs.OnImage.{on_image};
ghost use Rattle.sk_engines.specs.Reply.{output_of};

use crate::engine::Command;
use crate::on_image::instructions_in;
use crate::refusal::program_refused;
use crate::reply::{Reply, push_place};
use sk_filter::check;
use sk_insn::Insn;
use sk_text::Line;
use std::alloc::{AllocError, Global};

// `skern check`.
pub(crate) struct Check;

impl Command for Check {
    ghost answers = { on_image program_answer };

    fn reply(alloc: Global, text: &[u8]) -> Result<Reply, AllocError> {
        match instructions_in(alloc, text)? {
            Ok(insns) => Ok(judged(insns)),
            Err(refused) => Ok(refused),
        }
    }
}

fn judged(insns: Vec<Insn>) -> Reply
    ensures answer { output_of result ≡ program_answer insns.items }
{
    let count = insns.len();
    match check(insns) {
        Ok(_) => accepted(count),
        Err((_, fault)) => program_refused(fault),
    }
}

fn accepted(count: usize) -> Reply
    ensures answer { output_of result ≡ done (line (codes "ok " ++ decimal count)) }
{
    let mut text = Line::new();
    push_place(&mut text, "ok ", count);
    text.push_str("\n");
    Reply::Accepted(text)
}
