//! Images, records, operations and actions, at bytes and numbers that the manuals give.
use crate::filters::refuses_getppid;
use sk_insn::{
    Action, Arithmetic, ImageFault, NoImage, Operand, Operation, Record, decode, read_image,
    read_insns, write_insns,
};
use std::alloc::{AllocError, Global};
use std::test::Fail;

const RETURN_ALLOW: [u8; 8] = [0x06, 0, 0, 0, 0, 0, 0xff, 0x7f];

/// `ldabs 0`, `jeq 110 +0 +1`, `ret errno/1`, `ret allow`.
const REFUSES_GETPPID: [u8; 32] = [
    0x20, 0, 0, 0, 0, 0, 0, 0, 0x15, 0, 0, 1, 0x6e, 0, 0, 0, 0x06, 0, 0, 0, 1, 0, 5, 0, 0x06, 0, 0,
    0, 0, 0, 0xff, 0x7f,
];

#[test]
fn an_image_is_read_and_written(rt: HostRuntime) -> Result<(), Fail> {
    let alloc = rt.alloc();
    let Ok(insns) = read_insns(alloc, &REFUSES_GETPPID) else {
        return Err(Fail::from("no image"));
    };
    let wanted = refuses_getppid();
    assert_eq!(rt; insns.as_slice(), wanted.as_slice());
    let image = write_insns(alloc, insns.as_slice())?;
    assert_eq!(rt; image.as_slice(), REFUSES_GETPPID.as_slice());
    Ok(())
}

#[test]
fn images_are_refused(rt: HostRuntime) -> Result<(), Fail> {
    let alloc = rt.alloc();
    assert_eq!(rt; read_insns(alloc, &[]).err(), Some(ImageFault::Empty));
    assert_eq!(rt; read_insns(alloc, &[0; 7]).err(), Some(ImageFault::Ragged));
    assert!(rt; read_image(alloc, &RETURN_ALLOW)?.is_ok());
    assert_eq!(rt; read_image(alloc, &[0; 7])?.err(), Some(NoImage::Ragged));
    Ok(())
}

fn image_of(alloc: Global, instructions: usize) -> Result<Vec<u8>, AllocError> {
    let mut image = Vec::new(alloc);
    for _instruction in 0..instructions {
        image.extend_from_slice(&RETURN_ALLOW)?;
    }
    Ok(image)
}

#[test]
fn images_have_4096_instructions_at_most(rt: HostRuntime) -> Result<(), Fail> {
    let longest = read_insns(rt.alloc(), &image_of(rt.alloc(), 4096)?);
    assert!(rt; longest.is_ok());
    let longer = read_insns(rt.alloc(), &image_of(rt.alloc(), 4097)?);
    assert_eq!(rt; longer.err(), Some(ImageFault::TooLong));
    Ok(())
}

#[test]
fn a_record_is_its_64_bytes(rt: HostRuntime) {
    let mut bytes = [0u8; 64];
    bytes[0] = 0x27;
    bytes[4] = 0x3e;
    bytes[7] = 0xc0;
    bytes[16] = 0x11;
    bytes[20] = 0x22;
    bytes[63] = 0x33;
    let call = Record::native(39, 0, [0x22_0000_0011, 0, 0, 0, 0, 0x33 << 56]);
    assert_eq!(rt; Record::of(&bytes), Some(call));
    assert_eq!(rt; call.bytes().as_slice(), bytes.as_slice());
    assert_eq!(rt;
        [
            call.word(0),
            call.word(4),
            call.word(16),
            call.word(20),
            call.word(60)
        ],
        [39, 0xC000_003E, 0x11, 0x22, 0x3300_0000]
    );
    bytes[7] = 0x40;
    assert_eq!(rt; Record::of(&bytes), None);
}

#[test]
fn operations_stand_in_the_table(rt: HostRuntime) {
    let shift = Operation::Compute(Arithmetic::ShiftRight, Operand::IndexRegister);
    let found = (decode(0x7c), Operation::named(b"rshx"));
    assert_eq!(rt; found, (Some(shift), Some(shift)));
    assert_eq!(rt; (shift.code(), shift.name()), (0x7c, "rshx"));
    assert_eq!(rt; Operation::named(b"mod"), None);
}

#[test]
fn codes_of_41_operations_are_permitted(rt: HostRuntime) {
    let permitted = (0..=u16::MAX)
        .filter(|code| decode(*code).is_some())
        .count();
    assert_eq!(rt; permitted, 41);
}

#[test]
fn values_ask_for_actions(rt: HostRuntime) {
    let log = Action::Log;
    assert_eq!(rt;
        (Action::of(0x7ffc_0000), Action::of(0x7ffc_ffff)),
        (log, log)
    );
    assert_eq!(rt;
        (Action::named(b"log"), log.value()),
        (Some(log), Some(0x7ffc_0000))
    );
    assert_eq!(rt; (log.name(), log.performs()), ("log", true));
    let unknown = Action::of(0x7ffd_0000);
    assert_eq!(rt; (unknown, unknown.value()), (Action::Unknown, None));
    assert!(rt; !unknown.performs() && Action::named(b"unknown").is_none());
}
