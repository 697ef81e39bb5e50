//! The commands by name, so that a table of rows can say which one it is about.
use super::{Reader, Writer};
use sk_engines::{CommandFault, FilterWord, filter_command};
use sk_run::{EngineFault, engine};
use sk_text::{Counted, Sink, Source};
use std::alloc::Global;

/// A command of the program.
#[derive(Clone, Copy, Debug, PartialEq, Eq)]
pub enum Command {
    Asm,
    Check,
    Eval,
    List,
    /// A run of a scenario, which is told by 1 where it is none, and writes nothing then.
    Run,
}

impl Command {
    /// Runs the command.
    pub fn run<R: Source, W: Sink>(
        self,
        alloc: Global,
        reader: &mut R,
        writer: &mut W,
    ) -> Result<u8, CommandFault> {
        let word = match self {
            Command::Asm => FilterWord::Asm,
            Command::Check => FilterWord::Check,
            Command::Eval => FilterWord::Eval,
            Command::List => FilterWord::List,
            Command::Run => {
                return match engine(alloc, reader, writer) {
                    Ok(_) => Ok(0),
                    Err(EngineFault::Scenario(_)) => Ok(1),
                    Err(EngineFault::Read) => Err(CommandFault::Read),
                    Err(EngineFault::Write) => Err(CommandFault::Write),
                    Err(EngineFault::Memory { .. }) => Err(CommandFault::Memory),
                };
            }
        };
        filter_command(alloc, word, reader, writer)
    }

    /// Runs the command on a text, and gives what it answered and what it wrote.
    pub fn on(self, alloc: Global, text: &[u8]) -> (Result<u8, CommandFault>, Vec<u8>) {
        let mut reader = Counted::new(Reader::new(text));
        let mut writer = Counted::new(Writer::new(alloc));
        let answer = self.run(alloc, &mut reader, &mut writer);
        (answer, writer.into_inner().held)
    }

    /// Whether the command answers this status to a text, and writes this.
    pub fn answers(self, alloc: Global, text: &[u8], status: u8, output: &[u8]) -> bool {
        let (answer, held) = self.on(alloc, text);
        answer == Ok(status) && held.as_slice() == output
    }
}
