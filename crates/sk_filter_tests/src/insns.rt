//! Instructions, by their codes.
use sk_insn::Insn;

/// The action that lets a call through.
pub(crate) const ALLOW: u32 = 0x7fff_0000;

/// An error of number 1.
pub(crate) const EPERM: u32 = 0x0005_0001;

pub(crate) fn insn(code: u16, jt: u8, jf: u8, k: u32) -> Insn {
    Insn { code, jt, jf, k }
}

pub(crate) fn branch(code: u16, k: u32, jt: u8, jf: u8) -> Insn {
    insn(code, jt, jf, k)
}

pub(crate) fn with_k(code: u16, k: u32) -> Insn {
    insn(code, 0, 0, k)
}

pub(crate) fn ldabs(k: u32) -> Insn {
    with_k(0x20, k)
}

pub(crate) fn ldimm(k: u32) -> Insn {
    with_k(0x00, k)
}

pub(crate) fn ldximm(k: u32) -> Insn {
    with_k(0x01, k)
}

pub(crate) fn ldmem(k: u32) -> Insn {
    with_k(0x60, k)
}

pub(crate) fn st(k: u32) -> Insn {
    with_k(0x02, k)
}

pub(crate) fn ja(k: u32) -> Insn {
    with_k(0x05, k)
}

pub(crate) fn ret(k: u32) -> Insn {
    with_k(0x06, k)
}

pub(crate) fn divx() -> Insn {
    with_k(0x3c, 0)
}

pub(crate) fn jeq(k: u32, jt: u8, jf: u8) -> Insn {
    branch(0x15, k, jt, jf)
}

pub(crate) fn tax() -> Insn {
    with_k(0x07, 0)
}

pub(crate) fn reta() -> Insn {
    with_k(0x16, 0)
}
