//! The forms of files of filters, where their filters stand, and what is said of those that are refused.
use sk_ask::{FileFault, Form, LineFault, Place, Refused, attach, fault_text, find, form_of};
use sk_engines::Refusal;
use sk_filter::CheckFault;
use std::test::Fail;

#[test]
fn forms(rt: HostRuntime) {
    let rows: [(&[u8], Form); 7] = [
        (b"", Form::Digits),
        (b"06 00\r\nFf", Form::Digits),
        (b"6\x00", Form::Raw),
        (b"filter 00", Form::Lines),
        (b"06\t00", Form::Lines),
        (b"\xef\xbb\xbf06", Form::Lines),
        (b"0g", Form::Lines),
    ];
    for (bytes, form) in rows {
        assert_eq!(rt; form_of(bytes), form);
    }
}

// Two files, of which the second has lines: where each filter stands, and the first that is refused.
#[test]
fn places(rt: HostRuntime) -> Result<(), Fail> {
    let alloc = rt.alloc();
    let mut files = Vec::new(alloc);
    files.push(b"060000000000ff7f".to_vec(alloc)?)?;
    files.push(b"; two\nfilter 060000000000ff7f\nfilter 2000000000000000\n".to_vec(alloc)?)?;
    let found = find(alloc, &files)?.ok().ok_or("refused")?;
    let places = [(0, None), (1, Some(2)), (1, Some(3))];
    for (place, (file, line)) in found.places.iter().zip(places) {
        assert_eq!(rt; *place, Place { file, line });
    }
    let why = FileFault::Filter(Some(3), Refusal::Program(CheckFault::NoReturn));
    assert_eq!(rt;
        attach(alloc, &found)?.err(),
        Some(Refused { file: 1, why })
    );
    Ok(())
}

#[test]
fn texts(rt: HostRuntime) -> Result<(), Fail> {
    let rows: [(FileFault, &str); 3] = [
        (
            FileFault::Line(7, LineFault::UnknownWord),
            "line 7: expected filter HEX",
        ),
        (
            FileFault::TooMany(None),
            "one filter too many: expected at most 32 in all files",
        ),
        (
            FileFault::Filter(None, Refusal::Program(CheckFault::DivZero { at: 3 })),
            "instruction 3: division by the constant 0",
        ),
    ];
    for (fault, text) in rows {
        assert_eq!(rt; fault_text(rt.alloc(), fault)?.as_str(), text);
    }
    Ok(())
}
