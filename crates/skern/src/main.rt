//! The program `skern`, over the standard streams.
#![tactic(auto)]

use sk_run::{CommandFault, FAILED, command, failed, finish, words_of};
use sk_text::Counted;
use std::io;
use std::io::{BufWriter, ErrorKind};
use std::process::ExitCode;

/// How many bytes are gathered before they are written.
const BLOCK: usize = 65_536;

fn main(rt: HostRuntime) -> ExitCode {
    let alloc = rt.alloc();
    let output = match BufWriter::with_capacity(alloc, BLOCK, io::writer(&rt)) {
        Ok(output) => output,
        Err(error) if error.kind() == ErrorKind::OutOfMemory => {
            let mut writer = Counted::new(io::writer(&rt));
            return ExitCode::from(failed(&mut writer, CommandFault::Memory));
        }
        Err(_) => return ExitCode::from(FAILED),
    };
    let mut reader = Counted::new(rt.reader());
    let mut writer = Counted::new(output);
    let status = match words_of(&rt) {
        Ok(words) => command(alloc, words.as_slice(), &mut reader, &mut writer),
        Err(error) if error.kind() == ErrorKind::OutOfMemory => failed(
            &mut writer,
            CommandFault::Memory,
        ),
        // A word that is no text says nothing.
        Err(_) => command(alloc, &[], &mut reader, &mut writer),
    };
    let (status, _output) = finish(writer.into_inner(), status);
    ExitCode::from(status)
}
