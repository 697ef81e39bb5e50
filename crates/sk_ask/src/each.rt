//! What is told of calls, of each that is asked for or of all.
ghost use Rattle.std.specs.Prelude.{IfOk};
ghost use Rattle.sk_ask.specs.Calls.{OfAll, OfEach};

use std::alloc::{AllocError, Global};

/// What is told of one call, or of all.
pub trait OfCall: Drop {
    ghost use Rattle.std.specs.Prelude.{ℕ, List, Option};

    /// What it is told by.
    type Item: Drop;

    // Whether it is told of this call by these.
    ghost tells: { Self → Option ℕ → List Self.Item → Type 0 };

    /// What is told of this call, or of all.
    fn items(&self, alloc: Global, call: Option<u32>) -> Result<Vec<Self::Item>, AllocError>
        ensures told { IfOk result (λ items. tells self.now call items.items) };
}

/// What is told of these calls, one behind the other, or where there is none of all.
pub fn items_of_each<T: OfCall>(
    alloc: Global,
    it: &T,
    calls: &[u32],
) -> Result<Vec<T::Item>, AllocError>
    ensures told { IfOk result (λ items. OfEach (T.tells it.now) calls.now items.items) }
{
    if calls.is_empty() {
        return it.items(alloc, None);
    }
    items_of_all(alloc, it, calls)
}

fn items_of_all<T: OfCall>(alloc: Global, it: &T, calls: &[u32]) -> Result<Vec<T::Item>, AllocError>
    ensures told { IfOk result (λ items. OfAll (T.tells it.now) calls.now items.items) }
{
    let mut items = Vec::new(alloc);
    let mut rest = calls;
    while let Some((nr, left)) = rest.split_first() {
        let mut first = it.items(alloc, Some(*nr))?;
        items.append(&mut first)?;
        rest = left;
    }
    Ok(items)
}
