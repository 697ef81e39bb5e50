//! `skern list`: the text of an image.
ghost use Rattle.sk_engines.specs.ListCommand.{listed_answer};
ghost use Rattle.sk_engines.specs.OnImage.{on_image};

use crate::engine::Command;
use crate::on_image::instructions_in;
use crate::reply::Reply;
use sk_asm::list;
use std::alloc::{AllocError, Global};

// `skern list`.
pub(crate) struct List;

impl Command for List {
    ghost answers = { on_image listed_answer };

    fn reply(alloc: Global, text: &[u8]) -> Result<Reply, AllocError> {
        match instructions_in(alloc, text)? {
            Ok(insns) => Ok(Reply::Done(list(alloc, &insns)?)),
            Err(refused) => Ok(refused),
        }
    }
}
