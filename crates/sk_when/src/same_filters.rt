//! Whether two chains have the same filters.
ghost use Rattle.std.specs.Prelude.{◌≡◌, ◌↔◌, IsTrue};

use sk_filter::{Chain, Programs};
use sk_insn::Insn;

/// Whether two chains have the same filters, in the same order.
pub fn have_same_filters(old: &Chain, new: &Chain) -> bool
    ensures same { IsTrue result ↔ (old.now ≡ new.now) }
{
    are_same(old.programs(), new.programs())
}

fn are_same(mut one: Programs<'_>, mut other: Programs<'_>) -> bool
    ensures same { IsTrue result ↔ (one.entry ≡ other.entry) }
{
    match (one.next(), other.next()) {
        (None, None) => true,
        (Some(program), Some(another)) => {
            is_same(program.insns(), another.insns()) && are_same(one, other)
        }
        _ => false,
    }
}

#[tactic(auto, using(crate::proofs::SameInsns::same_insns))]
fn is_same(insns: &[Insn], others: &[Insn]) -> bool
    ensures same { IsTrue result ↔ (insns.now ≡ others.now) }
{
    insns == others
}
