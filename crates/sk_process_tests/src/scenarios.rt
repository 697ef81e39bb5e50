//! Scenarios at their limits. What is read of a scenario is a contract of `sk_scenario`; each form of a line is read to its report
//! in `skern/report_rows.rt`.
use sk_scenario::{ScenarioFault, read};
use std::alloc::{AllocError, Global};
use std::test::Fail;

/// A first part, a middle one and how often it comes, a last one, and the line that is over a limit.
const LIMITS: &[(&[u8], &[u8], usize, &[u8], Option<usize>)] = &[
    (b"program a\n", b"pause\n", 1000, b"end", None),
    (b"program a\n", b"pause\n", 1001, b"end", Some(1002)),
    (b"filter f\n", b"ret 0\n", 4096, b"end", None),
    (b"filter f\n", b"ret 0\n", 4097, b"end", Some(4098)),
    (b"program a\nend", b" ", 252, b"", None),
    (b"program a\nend", b" ", 253, b"", Some(2)),
];

#[test]
fn tells_what_is_over_a_limit(rt: HostRuntime) -> Result<(), Fail> {
    for (first, middle, times, last, line) in LIMITS {
        let text = repeated(rt.alloc(), first, middle, *times, last)?;
        let fault = line.map(|n| ScenarioFault::Limit { n });
        assert_eq!(rt; read(rt.alloc(), &text).err(), fault, "at {times}");
    }
    Ok(())
}

fn repeated(
    alloc: Global,
    first: &[u8],
    middle: &[u8],
    times: usize,
    last: &[u8],
) -> Result<Vec<u8>, AllocError> {
    let mut text = first.to_vec(alloc)?;
    for _ in 0..times {
        text.extend_from_slice(middle)?;
    }
    text.extend_from_slice(last)?;
    Ok(text)
}
