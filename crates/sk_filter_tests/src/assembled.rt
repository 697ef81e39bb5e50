//! Texts whose instructions or faults the grammar gives, a few of each kind: `sk_asm` has more of them as theorems.
use crate::insns::insn;
use sk_asm::{AsmFault, Shape, assemble, assemble_block, is_end};
use sk_insn::Operation;
use std::alloc::{AllocError, Global};
use std::test::Fail;

// The first line, then so many times the second one, then the last ones.
fn repeated(alloc: Global, first: &[u8], times: usize, last: &[u8]) -> Result<Vec<u8>, AllocError> {
    let mut text = first.to_vec(alloc)?;
    for _ in 0..times {
        text.extend_from_slice(b"ret allow\n")?;
    }
    text.extend_from_slice(last)?;
    Ok(text)
}

/// A line that is no line of a listing, and the instruction that it stands for. `listed.rt` has the others.
const FORMS: &[(&[u8], u16, u8, u8, u32)] = &[
    (b"jset 1 +0x1F +255", 0x45, 31, 255, 1),
    (b" ret  errno/0x10 ", 0x06, 0, 0, 0x0005_0010),
    (b".insn 0x30 0 0 12", 0x30, 0, 0, 12),
];

#[test]
fn assembles_each_form(rt: HostRuntime) -> Result<(), Fail> {
    for &(line, code, jt, jf, k) in FORMS {
        let insns = assemble(rt.alloc(), line)?;
        assert_eq!(rt; insns.as_slice(), [insn(code, jt, jf, k)].as_slice());
    }
    Ok(())
}

#[test]
fn labels_lie_255_instructions_ahead_at_most(rt: HostRuntime) -> Result<(), Fail> {
    let alloc = rt.alloc();
    let nearest = repeated(alloc, b"jeq 1 far +0\n", 255, b"far:\nret allow")?;
    let insns = assemble(alloc, &nearest)?;
    assert_eq!(rt;
        (insns.len(), insns.first().copied()),
        (257, Some(insn(0x15, 255, 0, 1)))
    );
    let farther = repeated(alloc, b"jeq 1 far +0\n", 256, b"far:\nret allow")?;
    assert_eq!(rt;
        assemble(alloc, &farther).err(),
        Some(AsmFault::Far { n: 1 })
    );
    Ok(())
}

/// A text, and its first fault.
const FAULTS: &[(&[u8], AsmFault)] = &[
    (b"a:\njeq 1 a x", AsmFault::Back { n: 2 }),
    (b"a:\njeq 1 x a", AsmFault::Label { n: 2 }),
    (b"ret 4294967296", AsmFault::Line { n: 1 }),
    (b"jeq 1 +256 +0", AsmFault::Line { n: 1 }),
    (b"ret allow\r\n", AsmFault::Line { n: 1 }),
];

#[test]
fn answers_the_first_fault(rt: HostRuntime) {
    for (text, fault) in FAULTS {
        assert_eq!(rt; assemble(rt.alloc(), text).err(), Some(*fault));
    }
}

#[test]
fn programs_have_4096_instructions_at_most(rt: HostRuntime) -> Result<(), Fail> {
    let alloc = rt.alloc();
    let longest = repeated(alloc, b"", 4096, b"end:")?;
    assert_eq!(rt; assemble(alloc, &longest)?.len(), 4096);
    let longer = repeated(alloc, b"", 4097, b"")?;
    assert_eq!(rt;
        assemble(alloc, &longer).err(),
        Some(AsmFault::TooLong { n: 4097 })
    );
    Ok(())
}

#[test]
fn lines_and_texts_have_a_limit(rt: HostRuntime) -> Result<(), Fail> {
    let alloc = rt.alloc();
    let spaces = [b' '; 256];
    assert!(rt; assemble(alloc, &spaces[..255])?.is_empty());
    assert_eq!(rt;
        assemble(alloc, &spaces).err(),
        Some(AsmFault::TooLong { n: 1 })
    );
    let ends = vec![in alloc; b'\n'; 1_048_577]?;
    assert!(rt; assemble(alloc, &ends.as_slice()[1..])?.is_empty());
    assert_eq!(rt;
        assemble(alloc, &ends).err(),
        Some(AsmFault::TooLong { n: 0 })
    );
    Ok(())
}

#[test]
fn assembles_blocks(rt: HostRuntime) -> Result<(), Fail> {
    let alloc = rt.alloc();
    let insns = assemble_block(alloc, 1, b"ja end\nend:\n end \nbogus")?;
    assert_eq!(rt; insns.as_slice(), [insn(0x05, 0, 0, 0)].as_slice());
    let fault = assemble_block(alloc, 1, b"ja x\nend").err();
    assert_eq!(rt; fault, Some(AsmFault::Label { n: 2 }));
    Ok(())
}

#[test]
fn knows_the_end_of_a_block(rt: HostRuntime) {
    assert!(rt; is_end(b"  end ") && !is_end(b"end x") && !is_end(b""));
    assert_eq!(rt; Shape::of(Operation::Jump), Shape::Target);
}
