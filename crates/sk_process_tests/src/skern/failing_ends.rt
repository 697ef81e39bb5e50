//! The commands over ends that move one byte a call, fail at each call in turn, or never end, and a scenario that is cut.
use super::report_rows::{KEPT, KEPT_REPORT, NO_REPORT};
use super::{Command, Reader, Trouble, Writer};
use sk_engines::CommandFault;
use sk_text::{Counted, Sink, Source};
use std::alloc::Global;
use std::test::Fail;

/// Each command with an input and its whole answer.
const ANSWERS: &[(Command, &str, u8, &str)] = &[
    (
        Command::Eval,
        "record 270000003e0000c0 0000000000000000 0000000000000000 0000000000000000 0000000000000000 0000000000000000 0000000000000000 0000000000000000\nfilter 060000000000ff7f\n",
        0,
        "return 0x7fff0000 allow data 0 steps 1\n",
    ),
    (
        Command::Check,
        "6000000003000000 1600000000000000",
        1,
        "refused 10 unstored at 0 word 3\n",
    ),
    (
        Command::List,
        "060000000000ff7f 1600000000000000",
        0,
        "ret 0x7fff0000\nreta\n",
    ),
    (
        Command::Asm,
        "ldabs 0\nret allow\n",
        0,
        "2000000000000000\n060000000000ff7f\n",
    ),
    (Command::Run, KEPT, 0, KEPT_REPORT),
];

/// What a command has come to.
#[derive(Drop)]
struct Ran {
    answer: Result<u8, CommandFault>,
    held: Vec<u8>,
    /// How often the reader has failed, and the writer.
    failures: (u64, u64),
}

fn run(alloc: Global, command: Command, reader: Reader, writer: Writer) -> Ran {
    let mut reader = Counted::new(reader);
    let mut writer = Counted::new(writer);
    let answer = command.run(alloc, &mut reader, &mut writer);
    Ran {
        answer,
        failures: (reader.failures(), writer.failures()),
        held: writer.into_inner().held,
    }
}

// A reader that gives one byte a call and a writer that takes one change nothing.
#[test]
fn short_ends_change_nothing(rt: HostRuntime) {
    for &(command, input, status, output) in ANSWERS {
        let reader = Reader {
            step: 1,
            ..Reader::new(input.as_bytes())
        };
        let writer = Writer {
            step: 1,
            ..Writer::new(rt.alloc())
        };
        let ran = run(rt.alloc(), command, reader, writer);
        assert_eq!(rt; (ran.answer, ran.failures), (Ok(status), (0, 0)));
        assert!(rt; ran.held.as_slice() == output.as_bytes(), "{command:?}");
    }
}

// A reader that fails at each of its calls in turn: nothing is written.
#[test]
fn failing_reads_are_told(rt: HostRuntime) {
    for &(command, input, _, _) in ANSWERS {
        for good in 0..input.len() as u64 + 1 {
            let reader = Reader {
                step: 1,
                good,
                ..Reader::new(input.as_bytes())
            };
            let ran = run(rt.alloc(), command, reader, Writer::new(rt.alloc()));
            assert_eq!(rt;
                (ran.answer, ran.failures, ran.held.len()),
                (Err(CommandFault::Read), (1, 0), 0),
                "{command:?} after {good}"
            );
        }
    }
}

// A writer that fails, or takes no byte, at each of its calls in turn: what went out is what it took
// before.
#[test]
fn failing_writes_are_told(rt: HostRuntime) {
    for &(command, input, _, output) in ANSWERS {
        for good in 0..output.len() {
            let before = &output.as_bytes()[..good];
            for trouble in [Trouble::Error, Trouble::Nothing] {
                let ran = run_into(rt.alloc(), command, input, good as u64, trouble);
                assert_eq!(rt;
                    (ran.answer, ran.failures, ran.held.as_slice()),
                    (Err(CommandFault::Write), (0, 1), before),
                    "{command:?} after {good}"
                );
            }
        }
    }
}

// A run with a writer that takes one byte a call, until it goes wrong.
fn run_into(alloc: Global, command: Command, input: &str, good: u64, trouble: Trouble) -> Ran {
    let writer = Writer {
        step: 1,
        good,
        trouble,
        ..Writer::new(alloc)
    };
    run(alloc, command, Reader::new(input.as_bytes()), writer)
}

// Each line of a report is one write, where the writer takes all of it.
#[test]
fn failing_writes_leave_whole_lines(rt: HostRuntime) -> Result<(), Fail> {
    let mut front = Vec::new(rt.alloc());
    for (good, line) in KEPT_REPORT.lines().enumerate() {
        let writer = Writer {
            good: good as u64,
            ..Writer::new(rt.alloc())
        };
        let ran = run(
            rt.alloc(),
            Command::Run,
            Reader::new(KEPT.as_bytes()),
            writer,
        );
        let told = (ran.answer, ran.held.as_slice());
        assert_eq!(rt;
            told,
            (Err(CommandFault::Write), front.as_slice()),
            "after {good}"
        );
        front.extend_from_slice(line.as_bytes())?;
        front.push(b'\n')?;
    }
    Ok(())
}

// Each beginning of a scenario has a report or a fault, and where it has a fault nothing is written. Which fault it is, is a
// contract of the reader.
#[test]
fn cut_scenarios_have_a_report_or_one_fault(rt: HostRuntime) {
    for length in 0..KEPT.len() {
        let (answer, held) = Command::Run.on(rt.alloc(), &KEPT.as_bytes()[..length]);
        let is_told = (answer, held.is_empty()) == (Ok(1), true)
            || answer == Ok(0) && !held.is_empty();
        assert!(rt; is_told, "cut behind {length} bytes");
    }
    assert!(rt; Command::Run.answers(rt.alloc(), b"", 0, NO_REPORT.as_bytes()));
}

// A reader that never ends: one byte more than the limit decides.
#[test]
fn endless_readers_are_refused(rt: HostRuntime) {
    let refusal = b"skern: line 0: over the limit\n".as_slice();
    for (command, output) in [
        (Command::Asm, refusal),
        (Command::Check, refusal),
        (Command::Eval, refusal),
        (Command::List, refusal),
        (Command::Run, b""),
    ] {
        let mut reader = Counted::new(Endless { taken: 0 });
        let mut writer = Counted::new(Writer::new(rt.alloc()));
        let answer = command.run(rt.alloc(), &mut reader, &mut writer);
        let held = writer.into_inner().held;
        let told = (answer, held.as_slice(), reader.into_inner().taken);
        assert_eq!(rt; told, (Ok(1), output, 1_048_577), "{command:?}");
    }
}

/// Gives line feeds for ever, and counts them.
#[derive(Drop)]
struct Endless {
    taken: u64,
}

impl std::io::Read for Endless {
    fn read(&mut self, buffer: &mut [u8]) -> std::io::Result<usize> {
        for byte in buffer.iter_mut() {
            *byte = b'\n';
        }
        self.taken = self.taken.saturating_add(buffer.len() as u64);
        Ok(buffer.len())
    }
}
