//! What a program does around its command: it takes its words, tells its usage and its faults, and ends.
ghost use Rattle.std.specs.Prelude.{◌≡◌, ◌≢◌, Err};
ghost use Rattle.std.specs.Io.Buffered.{writer_buffer, writer_inner};
ghost use Rattle.sk_text.specs.Counted.{inner_of, failures_of};
ghost use Rattle.sk_engines.specs.Engine.{Delivers, CountsWrites};
ghost use Rattle.sk_engines.specs.Output.{misused};
ghost use Rattle.sk_engines.specs.Program.{Finishes, Sends, device, fault_line};

use crate::fault::CommandFault;
use sk_text::{Counted, Line, Sink, send};
use std::env::Env;
use std::io::{BufWriter, Write};
use std::{env, io};

const REFUSED: u8 = 2;

/// The exit status where memory or a device failed.
pub const FAILED: u8 = 3;

/// The words behind the program's name.
pub fn words_of<R: Env + AllocGlobal>(rt: &R) -> io::Result<Vec<String>> {
    let mut words = Vec::new(rt.alloc());
    for word in env::args(rt)?.skip(1) {
        words.push(word)?;
    }
    Ok(words)
}

/// Writes the fault's text once, without memory, and gives its exit status. Where this write fails
/// too, nothing more can be said.
pub fn failed<W: Sink>(writer: &mut W, fault: CommandFault) -> u8
    ensures status { result ≡ 3 }
    ensures told { Sends (fault_line fault)
        (device (W.contents writer.old) (W.failed writer.old)) (device (W.contents writer.new) (W.failed writer.new)) }
{
    let mut line = Line::new();
    line.push_str(fault.text());
    line.push_str("\n");
    let _ = send(writer, line.as_str().as_bytes());
    FAILED
}

/// Writes what is left in the block, and gives the exit status of it all, and the writer with a count of its failures.
/// Where that fails the text of the failure goes past the block, once. A fault that was told before, with status 3, had
/// its text in the block. The writer is not flushed: standard output holds nothing back.
pub fn finish<W: Write + Drop>(output: BufWriter<W>, status: u8) -> (u8, Counted<W>)
    ensures ends { Finishes status result.0 (writer_buffer output)
        (device (W.contents (writer_inner output)) 0) (device (W.contents (inner_of result.1)) (failures_of result.1)) }
{
    let (writer, block) = output.into_parts();
    let mut writer = Counted::new(writer);
    match send(&mut writer, &block) {
        Ok(()) => (status, writer),
        Err(_) if status == FAILED => (FAILED, writer),
        Err(_) => {
            let status = failed(&mut writer, CommandFault::Write);
            (status, writer)
        }
    }
}

/// Tells how a program is used where its words say nothing, and gives the exit status for that.
pub fn tell_usage<W: Sink>(writer: &mut W, usage: &str) -> Result<u8, CommandFault>
    ensures told { Delivers (misused usage.now) result (W.contents writer.old) (W.contents writer.new) }
    ensures writes { CountsWrites result (W.failed writer.old) (W.failed writer.new) }
    ensures no_read { result ≢ Err CommandFault.Read }
    ensures no_memory { result ≢ Err CommandFault.Memory }
{
    send(writer, usage.as_bytes())?;
    Ok(REFUSED)
}
