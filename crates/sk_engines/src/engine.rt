//! What all commands do alike: they read the input, and send the answer.
ghost use Rattle.std.specs.Prelude.{◌≡◌, ◌≢◌, ◌≤◌, ℕ, List, take, IfOk, IfSome, Err};
ghost use Rattle.sk_engines.specs.Output.{Output, within_limit};
ghost use Rattle.sk_text.specs.Reading.{ConsumesUpTo};
ghost use Rattle.sk_engines.specs.Engine.{Delivers, CountsReads, CountsWrites};
ghost use Rattle.sk_engines.specs.Reply.{output_of};

use crate::fault::CommandFault;
use crate::reply::Reply;
use sk_text::{MOST_BYTES, Sink, Source, send, take_up_to};
use std::alloc::{AllocError, Global};

/// What a command answers on a text within the limit.
pub trait Command {
    ghost answers: { List ℕ → Output };

    fn reply(alloc: Global, text: &[u8]) -> Result<Reply, AllocError>
        ensures answer { IfOk result (λ reply. output_of reply ≡ answers text.now) };
}

/// Runs a command over a reader and a writer.
pub fn run<C: Command, R: Source, W: Sink>(
    alloc: Global,
    reader: &mut R,
    writer: &mut W,
) -> Result<u8, CommandFault>
    ensures told { IfSome (R.remaining reader.old) (λ input.
        Delivers (within_limit C.answers input) result (W.contents writer.old) (W.contents writer.new)) }
    ensures status { IfOk result (λ status. status ≤ 1) }
    ensures limit { ConsumesUpTo 1048577 (R.remaining reader.old) (R.remaining reader.new) }
    ensures reads { CountsReads result (R.failed reader.old) (R.failed reader.new) }
    ensures writes { CountsWrites result (W.failed writer.old) (W.failed writer.new) }
{
    let input = input(alloc, reader)?;
    let reply = reply_within_limit::<C>(alloc, &input)?;
    deliver(writer, &reply)
}

#[tactic(auto, unfolding(crate::specs::Output::within_limit))]
fn reply_within_limit<C: Command>(alloc: Global, input: &[u8]) -> Result<Reply, AllocError>
    ensures answer { IfOk result (λ reply. output_of reply ≡ within_limit C.answers input.now) }
{
    if input.len() > MOST_BYTES {
        return Ok(Reply::at_line(0, "over the limit"));
    }
    C::reply(alloc, input)
}

/// The input, of which one byte more than the limit decides that it is too long.
pub fn input<R: Source>(alloc: Global, reader: &mut R) -> Result<Vec<u8>, CommandFault>
    ensures first { IfOk result (λ bytes.
        IfSome (R.remaining reader.old) (λ left. bytes.items ≡ take 1048577 left)) }
    ensures limit { ConsumesUpTo 1048577 (R.remaining reader.old) (R.remaining reader.new) }
    ensures reads { CountsReads result (R.failed reader.old) (R.failed reader.new) }
    ensures no_write { result ≢ Err CommandFault.Write }
{
    Ok(take_up_to(alloc, reader, MOST_BYTES + 1)?)
}

/// Sends the answer's text, and tells its status.
pub fn deliver<W: Sink>(writer: &mut W, reply: &Reply) -> Result<u8, CommandFault>
    ensures told { Delivers (output_of reply.now) result (W.contents writer.old) (W.contents writer.new) }
    ensures status { IfOk result (λ status. status ≤ 1) }
    ensures writes { CountsWrites result (W.failed writer.old) (W.failed writer.new) }
    ensures no_read { result ≢ Err CommandFault.Read }
    ensures no_memory { result ≢ Err CommandFault.Memory }
{
    send(writer, reply.text().as_bytes())?;
    Ok(reply.status())
}
