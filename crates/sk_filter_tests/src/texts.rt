//! Each public function once, at words and texts whose answers the grammar gives.
use sk_text::{
    HexDigits, HexFault, Line, Lines, Words, bytes_of, bytes_of_text, cut, four_words, hex_half,
    hex_word, is_name, is_number, is_passed_over, is_printable, is_same, no_word, number_up_to,
    one_word, push_digit, push_long, push_number, push_signed, three_words, two_words,
};
use std::test::Fail;

#[test]
fn cuts_lines(rt: HostRuntime) {
    let mut lines = Lines(b"a  bc\n\n ;d\ne");
    for line in [b"a  bc".as_slice(), b"", b" ;d", b"e"] {
        assert_eq!(rt; lines.next(), Some(line));
    }
    assert!(rt; lines.next().is_none());
    assert_eq!(rt; (Lines(b"").count(), Lines(b"\n").count()), (0, 1));
}

#[test]
fn cuts_words(rt: HostRuntime) {
    let mut words = Words(b"  ja\t top ");
    assert_eq!(rt; words.next(), Some(b"ja\t".as_slice()));
    assert_eq!(rt; words.next(), Some(b"top".as_slice()));
    assert!(rt; words.next().is_none());
}

#[test]
fn judges_lines(rt: HostRuntime) {
    for (line, printable, passed_over) in [
        (b" ; a ~".as_slice(), true, true),
        (b";\x7f", false, true),
        (b"a ; b", true, false),
    ] {
        assert_eq!(rt; is_printable(line), printable);
        assert_eq!(rt; is_passed_over(line), passed_over);
    }
}

#[test]
fn appends_numbers(rt: HostRuntime) {
    let mut line = Line::new();
    push_digit(&mut line, 15);
    push_number(&mut line, 0);
    push_number(&mut line, u32::MAX);
    push_long(&mut line, u64::MAX);
    push_signed(&mut line, -10);
    push_signed(&mut line, 9);
    assert_eq!(rt; line.as_str(), "f0429496729518446744073709551615-109");
}

#[test]
fn reads_numbers(rt: HostRuntime) {
    let most = u64::MAX;
    for (word, most, number) in [
        (b"00255".as_slice(), 255, Some(255)),
        (b"256", 255, None),
        (b"0xfFFf", most, Some(65535)),
        (b"18446744073709551615", most, Some(most)),
        (b"18446744073709551616", most, None),
    ] {
        assert_eq!(rt; number_up_to(word, most), number);
        assert!(rt; is_number(word));
    }
    for word in [b"".as_slice(), b"-1", b"1a", b"0xg"] {
        assert_eq!(rt; number_up_to(word, most), None);
        assert!(rt; !is_number(word));
    }
}

#[test]
fn knows_names_and_words(rt: HostRuntime) {
    assert!(rt; is_name(b"a") && !is_name(b"_a") && !is_name(b""));
    assert!(rt; is_same(b"end", b"end") && !is_same(b"ends", b"end"));
    assert_eq!(rt;
        (no_word(Words(b" ")), no_word(Words(b"a"))),
        (Some(()), None)
    );
    let one = (one_word(Words(b" a ")), one_word(Words(b"a b")));
    assert_eq!(rt; one, (Some(b"a".as_slice()), None));
    assert!(rt; two_words(Words(b"a b")) == Some((b"a", b"b")));
    assert!(rt; three_words(Words(b"a b c")) == Some((b"a", b"b", b"c")));
    assert!(rt; four_words(Words(b"a b c d")).is_some() && four_words(Words(b"a")).is_none());
}

#[test]
fn reads_hexadecimal(rt: HostRuntime) -> Result<(), Fail> {
    let alloc = rt.alloc();
    let bytes = bytes_of(alloc, Words(b"0 aF f"))?;
    assert_eq!(rt; bytes.as_slice(), [0x0a, 0xff].as_slice());
    assert!(rt; bytes_of(alloc, Words(b""))?.is_empty());
    let bytes = bytes_of_text(alloc, b"06 0\n0\n\n7F ")?;
    assert_eq!(rt; bytes.as_slice(), [0x06, 0x00, 0x7f].as_slice());
    Ok(())
}

#[test]
fn refuses_what_is_not_hexadecimal(rt: HostRuntime) {
    for text in [b"0".as_slice(), b"0g", b"00\t", b"0x00"] {
        let faults = (
            bytes_of(rt.alloc(), Words(text)).err(),
            bytes_of_text(rt.alloc(), text).err(),
        );
        let refused = Some(HexFault::NotHexadecimal);
        assert_eq!(rt; faults, (refused, refused));
    }
}

#[test]
fn shows_hexadecimal(rt: HostRuntime) -> Result<(), Fail> {
    let word = hex_word(0x7fff_00ab);
    let half = hex_half(0x1f);
    let bytes = HexDigits::<4>::of(b"\x06\xff");
    assert_eq!(rt; word.as_str(), "7fff00ab");
    let text = format!(in rt.alloc(); "0x{word} {half} {bytes}")?;
    assert_eq!(rt; text.as_str(), "0x7fff00ab 001f 06ff");
    Ok(())
}
