//! The program `ask`, over the files and the standard streams of the system.
#![tactic(auto)]

ghost use Rattle.std.specs.Prelude.{ℕ};
ghost use Rattle.sk_ask.specs.Shelves.{unknown};
ghost use Rattle.sk_ask.specs.Taking.{CountsWhy};

use sk_ask::{Shelf, Trees, Unopened, Unread, command, misused};
use sk_text::{Counted, Source, take_up_to};
use std::alloc::Global;
use std::cell::Cell;
use std::env::Env;
use std::fs::{Files, OpenFile};
use std::io::{ErrorKind, Input, Read, Write};
use std::process::ExitCode;
use std::{env, fs, io};

/// The files of the system; `-` is standard input.
#[derive(Drop)]
struct Host<'a, R> {
    rt: &'a R,
}

/// An opened file, or standard input.
#[derive(Drop)]
enum End<F, I> {
    File(F),
    Stdin(I),
}

impl<F: Read, I: Read> Read for End<F, I> {
    fn read(&mut self, buffer: &mut [u8]) -> io::Result<usize> {
        match self {
            End::File(file) => file.read(buffer),
            End::Stdin(input) => input.read(buffer),
        }
    }
}

impl<R: Files + Input> Shelf for Host<'_, R> {
    // Nothing is known of the system's files.
    ghost held = { λ _ _. unknown };

    fn take(
        &self,
        alloc: Global,
        reads: &mut u64,
        name: &str,
        most: usize,
    ) -> Result<Vec<u8>, Unread> {
        let end = match opened(self.rt, name) {
            Ok(end) => end,
            Err(error) => return Err(unopened(error.kind())),
        };
        let mut end = Counted::new(end);
        let bytes = take_up_to(alloc, &mut end, most);
        *reads = reads.saturating_add(end.failures());
        Ok(bytes?)
    }
}

/// Standard output, of which is noted that nobody reads it any more.
#[derive(Drop)]
struct Output<'a, W> {
    writer: W,
    is_unread: &'a Cell<bool>,
}

impl<W: Write> Write for Output<'_, W> {
    fn write(&mut self, bytes: &[u8]) -> io::Result<usize> {
        let written = self.writer.write(bytes);
        if let Err(error) = &written {
            if error.kind() == ErrorKind::BrokenPipe {
                self.is_unread.set(true);
            }
        }
        written
    }

    fn flush(&mut self) -> io::Result<()> {
        self.writer.flush()
    }
}

/// Standard error. It keeps silent where nobody reads the answer, as programs do that such a signal ends.
#[derive(Drop)]
struct Complaints<'a, W> {
    writer: W,
    is_unread: &'a Cell<bool>,
}

impl<W: Write> Write for Complaints<'_, W> {
    fn write(&mut self, bytes: &[u8]) -> io::Result<usize> {
        if self.is_unread.get() {
            return Ok(bytes.len());
        }
        self.writer.write(bytes)
    }

    fn flush(&mut self) -> io::Result<()> {
        self.writer.flush()
    }
}

// A folder is opened like a file, and its first read fails; so it is asked what it is.
fn opened<R: Files + Input>(rt: &R, name: &str) -> io::Result<End<R::File, R::Reader>> {
    if name == "-" {
        return Ok(End::Stdin(rt.reader()));
    }
    let file = fs::open(rt, name)?;
    if file.metadata()?.is_dir() {
        return Err(io::Error::from(ErrorKind::IsADirectory));
    }
    Ok(End::File(file))
}

fn unopened(kind: ErrorKind) -> Unread
    ensures { (reads : ℕ) → CountsWhy result reads reads }
{
    match kind {
        ErrorKind::NotFound => Unread::Unopened(Unopened::Missing),
        ErrorKind::PermissionDenied => Unread::Unopened(Unopened::Forbidden),
        ErrorKind::IsADirectory => Unread::Unopened(Unopened::Folder),
        ErrorKind::OutOfMemory => Unread::Memory,
        _ => Unread::Unopened(Unopened::Other),
    }
}

// The words behind the program's name.
fn words_of<R: Env + AllocGlobal>(rt: &R) -> io::Result<Vec<String>> {
    let mut words = Vec::new(rt.alloc());
    for word in env::args(rt)?.skip(1) {
        words.push(word)?;
    }
    Ok(words)
}

fn main(rt: HostRuntime) -> ExitCode {
    let alloc = rt.alloc();
    let is_unread = Cell::new(false);
    let mut out = Counted::new(Output {
        writer: rt.stdout(),
        is_unread: &is_unread,
    });
    let mut complaints = Counted::new(Complaints {
        writer: rt.stderr(),
        is_unread: &is_unread,
    });
    let shelf = Host { rt: &rt };
    let mut reads = 0;
    let status = match words_of(&rt) {
        Ok(words) => command(
            alloc,
            words.as_slice(),
            &shelf,
            &Trees,
            &mut reads,
            &mut out,
            &mut complaints,
        ),
        Err(error) => misused(&mut complaints, error.kind() == ErrorKind::OutOfMemory),
    };
    ExitCode::from(status)
}
