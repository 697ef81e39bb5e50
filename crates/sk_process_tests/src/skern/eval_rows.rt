//! `skern eval` at inputs so that each form of an output comes, and at its limits. What filters give is computed as theorems of
//! `sk_filter`, and `tools/refuse_memory.py` has the lines that are not understood.
use super::Command;
use std::alloc::{AllocError, Global};
use std::test::Fail;

const ZEROS: &[u8] =
    b"00000000000000000000000000000000000000000000000000000000000000000000000000000000000000000000000000000000000000000";

/// getpid, and getppid: the number and the architecture.
const GETPID: &str = "27000000 3e0000c0";

const GETPPID: &str = "6e000000 3e0000c0";

// The record of a call, and lines behind it.
fn asked(alloc: Global, call: &str, lines: &str) -> Result<Vec<u8>, AllocError> {
    let mut text = Vec::new(alloc);
    text.extend_from_slice(b"record ")?;
    text.extend_from_slice(call.as_bytes())?;
    text.extend_from_slice(&ZEROS[..112])?;
    text.extend_from_slice(b"\n")?;
    text.extend_from_slice(lines.as_bytes())?;
    Ok(text)
}

/// Calls and statuses, and filters, the oldest first, with what they answer.
const ROWS: &[(&str, u8, &[(&str, &str)])] = &[
    (
        GETPID,
        0,
        &[
            ("", "verdict 0x7fff0000 allow data 0\n"),
            (
                "filter 2000000000000000 150000016e000000 0600000001000500 060000000000ff7f\n",
                "return 0x7fff0000 allow data 0 steps 3\n",
            ),
            (
                "filter 0000000001000000 8400000000000000 1600000000000000\n",
                "return 0xffffffff unknown data 65535 steps 3\n",
            ),
            (
                "filter 060000000000ffff\nfilter 0600000002000500\n",
                "return 0x00050002 errno data 2 steps 1\nreturn 0xffff0000 unknown data 0 steps 1\nverdict 0xffff0000 unknown data 0\n",
            ),
        ],
    ),
    (
        GETPPID,
        0,
        &[(
            "filter 2000000000000000 150000016e000000 0600000001000500 060000000000ff7f\n",
            "return 0x00050001 errno data 1 steps 3\n",
        )],
    ),
    (
        GETPID,
        1,
        &[
            ("filter \n", "filter 0 refused image empty\n"),
            (
                "filter 060000000000ff7f\nfilter 4000000000000000\n",
                "filter 1 refused 3 code at 0\n",
            ),
            (
                "filter 0600\t0000000ff7f\n",
                "skern: line 2: not understood\n",
            ),
        ],
    ),
    (
        "27000000 3e000040",
        1,
        &[(
            "filter 060000000000ff7f\n",
            "skern: line 1: not understood\n",
        )],
    ),
];

#[test]
fn filters_answer_worked_rows(rt: HostRuntime) -> Result<(), Fail> {
    for &(call, status, rows) in ROWS {
        for &(lines, output) in rows {
            let text = asked(rt.alloc(), call, lines)?;
            let is_told = Command::Eval.answers(rt.alloc(), &text, status, output.as_bytes());
            assert!(rt; is_told, "at {lines}");
        }
    }
    Ok(())
}

// A filter line for each of so many filters.
fn with_filters(alloc: Global, filters: usize, insns: usize) -> Result<Vec<u8>, AllocError> {
    let mut text = asked(alloc, GETPID, "")?;
    for _ in 0..filters {
        text.extend_from_slice(b"filter")?;
        for _ in 0..insns {
            text.extend_from_slice(b" 060000000000ff7f")?;
        }
        text.extend_from_slice(b"\n")?;
    }
    Ok(text)
}

// Thirty-two filters, a thirty-third, and eight of the greatest length.
#[test]
fn filters_have_their_limits(rt: HostRuntime) -> Result<(), Fail> {
    let rows = [
        (32, 1, 0, "verdict 0x7fff0000 allow data 0\n"),
        (33, 1, 1, "skern: line 34: not understood\n"),
        (8, 4096, 1, "filter 7 refused path limit\n"),
    ];
    for (filters, insns, status, end) in rows {
        let text = with_filters(rt.alloc(), filters, insns)?;
        let (answer, held) = Command::Eval.on(rt.alloc(), &text);
        assert_eq!(rt; answer, Ok(status));
        assert!(rt; held.ends_with(end.as_bytes()), "{filters} filters");
        // A refusal is all that is written.
        assert!(rt; status == 0 || held.len() == end.len());
    }
    Ok(())
}
