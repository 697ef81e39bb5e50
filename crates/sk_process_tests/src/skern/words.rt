//! What the words of `skern` do, and what is told where its ends fail at first.
use super::report_rows::{FAULTS, NO_REPORT};
use super::{Reader, Writer};
use sk_run::{CommandFault, EngineFault, command, failed, finish};
use sk_scenario::ScenarioFault;
use sk_text::Counted;
use std::alloc::{AllocError, Global};
use std::io;
use std::io::BufWriter;
use std::test::Fail;

const USAGE: &[u8] = b"usage: skern run|check|eval|asm|list\n";

const ALLOW: &[u8] = b"060000000000ff7f";

#[test]
fn words_say_what_to_do(rt: HostRuntime) -> Result<(), Fail> {
    let rows: [(&[&str], u8, &[u8]); 13] = [
        (&[], 2, USAGE),
        (&["check"], 0, b"ok 1\n"),
        (&["asm"], 1, b"skern: line 1: not understood\n"),
        (&["list"], 0, b"ret 0x7fff0000\n"),
        (&["eval"], 1, b"skern: line 1: not understood\n"),
        (&["run"], 1, b"skern: line 1: not understood\n"),
        (&["check", "check"], 2, USAGE),
        (&["CHECK"], 2, USAGE),
        (&["che"], 2, USAGE),
        (&[""], 2, USAGE),
        (&["--help"], 2, USAGE),
        (&["help"], 2, USAGE),
        (&["--"], 2, USAGE),
    ];
    for (given, status, output) in rows {
        let (held, answer) = answer(rt.alloc(), given, Some(ALLOW), 0)?;
        assert_eq!(rt; (held.as_slice(), answer), (output, status), "at {given:?}");
    }
    Ok(())
}

// What a command wrote, and its status, where its input can be read at all, and its first so many writes failed.
fn answer(
    alloc: Global,
    given: &[&str],
    input: Option<&[u8]>,
    failing: u64,
) -> Result<(Vec<u8>, u8), AllocError> {
    let words = words(alloc, given)?;
    let mut reader = Counted::new(Reader {
        good: if input.is_some() { u64::MAX } else { 0 },
        ..Reader::new(input.unwrap_or(b""))
    });
    let mut writer = Counted::new(failing_at_first(alloc, failing));
    let status = command(alloc, words.as_slice(), &mut reader, &mut writer);
    Ok((writer.into_inner().held, status))
}

fn words(alloc: Global, given: &[&str]) -> Result<Vec<String>, AllocError> {
    let mut words = Vec::new(alloc);
    for word in given {
        words.push(word.to_string(alloc)?)?;
    }
    Ok(words)
}

// A writer whose first so many calls fail.
fn failing_at_first(alloc: Global, bad: u64) -> Writer {
    Writer {
        bad,
        ..Writer::new(alloc)
    }
}

#[test]
fn failures_are_told_once(rt: HostRuntime) -> Result<(), Fail> {
    let rows: [(&str, Option<&[u8]>, u64, &[u8]); 10] = [
        ("check", None, 0, b"skern: reading failed\n"),
        ("check", None, 1, b""),
        ("check", Some(ALLOW), 1, b"skern: writing failed\n"),
        ("check", Some(ALLOW), 2, b""),
        ("run", None, 0, b"skern: reading failed\n"),
        ("run", None, 1, b""),
        ("run", Some(b""), 1, b"skern: writing failed\n"),
        ("run", Some(b""), 2, b""),
        // The text of a scenario's fault can't be written.
        ("run", Some(b"turns 0"), 1, b"skern: writing failed\n"),
        ("run", Some(b"turns 0"), 2, b""),
    ];
    for (word, input, failing, output) in rows {
        let (held, status) = answer(rt.alloc(), &[word], input, failing)?;
        assert_eq!(rt;
            (held.as_slice(), status),
            (output, 3),
            "{word} with {failing} failing writes"
        );
    }
    Ok(())
}

// The display text of each fault of a scenario is the line that the program writes of it.
#[test]
fn faults_are_written_as_they_display(rt: HostRuntime) -> Result<(), Fail> {
    let faults = [
        (EngineFault::Read, CommandFault::Read),
        (EngineFault::Write, CommandFault::Write),
        (EngineFault::Memory { turns: 7 }, CommandFault::Memory),
        (
            EngineFault::Scenario(ScenarioFault::Memory),
            CommandFault::Memory,
        ),
    ];
    for (fault, written) in faults {
        let text = format!(in rt.alloc(); "{fault}")?;
        assert_eq!(rt; text.as_str(), written.text());
    }
    for &(input, text) in FAULTS {
        let (held, status) = answer(rt.alloc(), &["run"], Some(input.as_bytes()), 0)?;
        let line = format!(in rt.alloc(); "{text}\n")?;
        assert_eq!(rt;
            (held.as_slice(), status),
            (line.as_bytes(), 1),
            "at {input}"
        );
    }
    Ok(())
}

#[test]
fn want_of_memory_is_told(rt: HostRuntime) {
    let mut writer = Counted::new(Writer::new(rt.alloc()));
    assert_eq!(rt; failed(&mut writer, CommandFault::Memory), 3);
    let held = writer.into_inner().held;
    assert_eq!(rt; held.as_slice(), b"skern: out of memory\n".as_slice());
}

// The same where the output is written in blocks of so many bytes.
fn answer_in_blocks(
    alloc: Global,
    block: usize,
    word: &str,
    input: &[u8],
    failing: u64,
) -> Result<(Vec<u8>, u8), io::Error> {
    let words = words(alloc, &[word])?;
    let mut held = failing_at_first(alloc, failing);
    let mut reader = Counted::new(Reader::new(input));
    let mut writer = Counted::new(BufWriter::with_capacity(alloc, block, &mut held)?);
    let status = command(alloc, words.as_slice(), &mut reader, &mut writer);
    let (status, _) = finish(writer.into_inner(), status);
    Ok((held.held, status))
}

#[test]
fn blocks_are_written_at_the_end(rt: HostRuntime) -> Result<(), Fail> {
    let rows: [(usize, &str, &[u8], u64, &[u8], u8); 10] = [
        (64, "check", ALLOW, 0, b"ok 1\n", 0),
        (64, "check", ALLOW, 1, b"skern: writing failed\n", 3),
        (64, "check", ALLOW, 2, b"", 3),
        (
            64,
            "run",
            b"turns 0",
            0,
            b"skern: line 1: over the limit\n",
            1,
        ),
        (64, "run", b"turns 0", 1, b"skern: writing failed\n", 3),
        (64, "run", b"", 0, NO_REPORT.as_bytes(), 0),
        (64, "run", b"", 1, b"skern: writing failed\n", 3),
        // A line that is longer than the block is written by itself.
        (32, "run", b"", 0, NO_REPORT.as_bytes(), 0),
        (32, "run", b"", 1, b"skern: writing failed\n", 3),
        (32, "run", b"", 2, b"", 3),
    ];
    for (block, word, input, failing, output, status) in rows {
        let (held, answer) = answer_in_blocks(rt.alloc(), block, word, input, failing)?;
        assert_eq!(rt;
            (held.as_slice(), answer),
            (output, status),
            "{word} with {failing} failing writes"
        );
    }
    Ok(())
}
