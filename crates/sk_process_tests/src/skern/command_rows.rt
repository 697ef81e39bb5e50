//! The filter commands at inputs, with their statuses and outputs, so that each form of an output comes, and at their limits.
//! What the outputs are is a definition of `sk_engines`; `tools/refuse_memory.py` has all refusals.
use super::Command;
use super::report_rows::NO_REPORT;
use std::test::Fail;

/// Inputs of a command that end with a status, and their outputs.
const ROWS: &[(Command, u8, &[(&str, &str)])] = &[
    (
        Command::Check,
        1,
        &[
            ("", "refused image empty\n"),
            ("0600\r000000 00ff7f", "skern: not hexadecimal\n"),
            ("1500000100000000 060000000000ff7f", "refused 8 jump at 0\n"),
            (
                "060000000000ff7f\n0700000000000000\n",
                "refused 9 no return\n",
            ),
            (
                "6000000003000000 1600000000000000",
                "refused 10 unstored at 0 word 3\n",
            ),
        ],
    ),
    (
        Command::Check,
        0,
        &[
            ("0 6000000\n0000FF7f", "ok 1\n"),
            ("200000003c000000 060000000000ff7f", "ok 2\n"),
        ],
    ),
    (
        Command::Asm,
        0,
        &[
            ("", ""),
            (
                "ldabs 0\njeq 110 +0 +1\nret errno/1\nret allow\n",
                "2000000000000000\n150000016e000000\n0600000001000500\n060000000000ff7f\n",
            ),
            (
                "ja out\nret allow\nout:",
                "0500000001000000\n060000000000ff7f\n",
            ),
            (".insn 0x30 0 0 12", "300000000c000000\n"),
        ],
    ),
    (
        Command::Asm,
        1,
        &[
            ("a:\na:\nret allow", "skern: line 2: name given twice\n"),
            ("jeq 1 x +0\nret allow", "skern: line 1: no such name\n"),
        ],
    ),
    (Command::List, 1, &[("06", "refused image ragged\n")]),
    (
        Command::List,
        0,
        &[
            ("300000000c000000", ".insn 0x0030 0 0 0x0000000c\n"),
            (
                "2000000000000000 150000016e000000 0600000001000500 060000000000ff7f",
                "ldabs 0\njeq 110 +0 +1\nret 0x00050001\nret 0x7fff0000\n",
            ),
        ],
    ),
];

#[test]
fn commands_answer_worked_rows(rt: HostRuntime) {
    for &(command, status, rows) in ROWS {
        for &(input, output) in rows {
            let is_told = command.answers(rt.alloc(), input.as_bytes(), status, output.as_bytes());
            assert!(rt; is_told, "{command:?} at {input}");
        }
    }
}

#[test]
fn images_have_a_limit(rt: HostRuntime) -> Result<(), Fail> {
    let mut image = Vec::new(rt.alloc());
    for _ in 0..4097 {
        image.extend_from_slice(b"060000000000ff7f")?;
    }
    for command in [Command::Check, Command::List] {
        let (answer, held) = command.on(rt.alloc(), image.as_slice());
        let refusal = b"refused image too long\n".as_slice();
        assert_eq!(rt; (answer, held.as_slice()), (Ok(1), refusal));
    }
    Ok(())
}

// As many line feeds as an input may have.
#[test]
fn longest_inputs_are_read(rt: HostRuntime) -> Result<(), Fail> {
    let text = vec![in rt.alloc(); b'\n'; 1_048_576]?;
    let rows = [
        (Command::Asm, 0, ""),
        (Command::Check, 1, "refused image empty\n"),
        (Command::Eval, 1, "skern: line 1048577: not understood\n"),
        (Command::List, 1, "refused image empty\n"),
        (Command::Run, 0, NO_REPORT),
    ];
    for (command, status, output) in rows {
        let is_told = command.answers(rt.alloc(), &text, status, output.as_bytes());
        assert!(rt; is_told, "{command:?}");
    }
    Ok(())
}
