//! The filters of a caller, and the chain that they make.
ghost use Rattle.std.specs.Prelude.{◌≡◌, ◌↔◌, IfOk, IsTrue, map};
ghost use Rattle.libskern.specs.Shapes.{chain_in, images_of};

use crate::Fault;
use sk_engines::attach_images;
use sk_filter::Chain;
use std::alloc::{AllocError, Global};

/// The image of one filter: its `struct sock_filter`s of linux/filter.h, 8 bytes each.
#[repr(C)]
#[derive(Clone, Copy, Debug)]
pub struct Image<'a> {
    pub bytes: &'a [u8],
}

/// The chain of these filters, the oldest first, or the fault of the first one that is refused.
pub(crate) fn chain_of(
    alloc: Global,
    side: u32,
    filters: &[Image<'_>],
) -> Result<Result<Chain, Fault>, AllocError>
    ensures chain { IfOk result (λ chain. chain ≡ chain_in side filters.now) }
{
    let images = copies(alloc, filters)?;
    match attach_images(alloc, &images)? {
        Ok(filters) => Ok(Ok(Chain::over(filters))),
        Err((filter, refusal)) => Ok(Err(Fault::refused(side, filter, refusal))),
    }
}

/// Whether two callers have the same filters, in the same order.
pub(crate) fn are_same(old: &[Image<'_>], new: &[Image<'_>]) -> bool
    ensures same { IsTrue result ↔ (images_of old.now ≡ images_of new.now) }
{
    match (old.split_first(), new.split_first()) {
        (None, None) => true,
        (Some((one, olds)), Some((other, news))) => {
            is_same(one.bytes, other.bytes) && are_same(olds, news)
        }
        _ => false,
    }
}

#[tactic(auto, using(crate::proofs::Same::same_bytes))]
fn is_same(bytes: &[u8], others: &[u8]) -> bool
    ensures same { IsTrue result ↔ (bytes.now ≡ others.now) }
{
    bytes == others
}

fn copies(alloc: Global, filters: &[Image<'_>]) -> Result<Vec<Vec<u8>>, AllocError>
    ensures images { IfOk result (λ images. map (λ image. image.items) images.items ≡ images_of filters.now) }
{
    let mut images = Vec::with_capacity(alloc, filters.len())?;
    for filter in filters {
        let image = Vec::from_slice(alloc, filter.bytes)?;
        images.push(image)?;
    }
    Ok(images)
}
