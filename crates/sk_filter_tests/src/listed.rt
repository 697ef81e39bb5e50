//! Lines of each form, and texts that assemble to what they list, which is a theorem of `sk_asm`.
use crate::filters::refuses_getppid;
use crate::insns::insn;
use sk_asm::{assemble, laws, list};
use std::test::Fail;

/// An instruction, and its line.
const FORMS: &[(u16, u8, u8, u32, &str)] = &[
    (0x20, 0, 0, 16, "ldabs 16\n"),
    (0x00, 0, 0, 0xffff_ffff, "ldimm 4294967295\n"),
    (0x61, 0, 0, 1, "ldxmem 1\n"),
    (0x81, 0, 0, 0, "ldxlen\n"),
    (0x03, 0, 0, 3, "stx 3\n"),
    (0xa4, 0, 0, 1, "xor 1\n"),
    (0x84, 0, 0, 0, "neg\n"),
    (0x05, 0, 0, 0xffff_ffff, "ja +4294967295\n"),
    (0x45, 31, 255, 1, "jset 1 +31 +255\n"),
    (0x1d, 2, 3, 0, "jeqx +2 +3\n"),
    (0x06, 0, 0, 5, "ret 0x00000005\n"),
    (0x16, 0, 0, 0, "reta\n"),
    (0x06, 1, 0, 0x7fff_0000, ".insn 0x0006 1 0 0x7fff0000\n"),
];

#[test]
fn lists_each_form(rt: HostRuntime) -> Result<(), Fail> {
    for &(code, jt, jf, k, line) in FORMS {
        let given = [insn(code, jt, jf, k)];
        assert_eq!(rt; list(rt.alloc(), &given)?.as_str(), line);
        assert_eq!(rt;
            assemble(rt.alloc(), line.as_bytes())?.as_slice(),
            given.as_slice()
        );
    }
    Ok(())
}

#[test]
fn lists_filters(rt: HostRuntime) -> Result<(), Fail> {
    let filter = refuses_getppid();
    let text = list(rt.alloc(), &filter)?;
    let expected = "ldabs 0\njeq 110 +0 +1\nret 0x00050001\nret 0x7fff0000\n";
    assert_eq!(rt; text.as_str(), expected);
    let again = laws::assemble_listing(rt.alloc(), &filter)?;
    assert_eq!(rt; again.as_slice(), filter.as_slice());
    Ok(())
}

#[test]
fn lists_the_longest_program(rt: HostRuntime) -> Result<(), Fail> {
    let insns = vec![in rt.alloc(); insn(0xffff, 255, 255, 0xffff_ffff); 4096]?;
    let text = list(rt.alloc(), insns.as_slice())?;
    assert_eq!(rt; text.len(), 4096 * 32);
    assert_eq!(rt;
        assemble(rt.alloc(), text.as_bytes())?.as_slice(),
        insns.as_slice()
    );
    Ok(())
}
