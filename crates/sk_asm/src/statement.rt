//! What a line says, over the bytes of the text.
ghost use Rattle.std.specs.Prelude.{◌≡◌, Some};
ghost use Rattle.sk_asm.specs.Drafts.{drafted, draft_of, has_label};
ghost use Rattle.sk_asm.specs.Views.{destination_to, statement};

use crate::distance::Distance;
use sk_insn::Insn;

// What a line says.
#[derive(Clone, Copy)]
pub(crate) enum Said<'a> {
    Silent,
    Label(&'a [u8]),
    Plain(Insn),
    Jump(Jump<'a>),
}

// A jump: its instruction, and the labels that stand in place of its distances.
#[derive(Clone, Copy)]
pub(crate) enum Jump<'a> {
    Always(Insn, Option<&'a [u8]>),
    Branch(Insn, Option<&'a [u8]>, Option<&'a [u8]>),
}

impl<'a> Jump<'a> {
    // The instruction. A distance to a label is left 0.
    #[inline(always)]
    pub(crate) fn draft(&self) -> Insn
        ensures exact { Some result ≡ draft_of (statement self.now) }
    {
        match *self {
            Jump::Always(Insn { code, k, .. }, to) => Insn {
                code,
                jt: 0,
                jf: 0,
                k: drafted(k, to),
            },
            Jump::Branch(Insn { code, jt, jf, k }, t, f) => {
                let jt = drafted(jt, t);
                let jf = drafted(jf, f);
                Insn { code, jt, jf, k }
            }
        }
    }

    #[inline(always)]
    pub(crate) fn has_label(&self) -> bool
        ensures exact { result ≡ has_label (statement self.now) }
    {
        match self {
            Jump::Always(_, to) => to.is_some(),
            Jump::Branch(_, jt, jf) => jt.is_some() || jf.is_some(),
        }
    }
}

// A count, and 0 in place of a label.
#[inline(always)]
fn drafted<N: Distance>(count: N, label: Option<&[u8]>) -> N
    ensures exact { N.number result ≡ drafted (destination_to (N.number count) label.entry) }
{
    match label {
        None => count,
        Some(_) => N::of(0),
    }
}

// A jump of line `n` that has a label, and its place among the instructions.
#[derive(Clone, Copy)]
pub(crate) struct Pending<'a> {
    pub(crate) at: usize,
    pub(crate) n: usize,
    pub(crate) jump: Jump<'a>,
}
