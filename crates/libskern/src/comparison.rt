//! What is told of the filters of two chains.
ghost use Rattle.std.specs.Prelude.{◌≡◌, ◌≢◌, IfOk, IsErr};
ghost use Rattle.libskern.specs.Comparing.{BothFollowed, Differ, NeitherParts, Stand};
ghost use Rattle.libskern.specs.Faults.{IsTold, differ, fine, spent, unfollowed};
ghost use Rattle.libskern.specs.Shapes.{chains_in, images_of};

use crate::compare::{Difference, Found, compared, relation_asked};
use crate::filters::{are_same, chain_of};
use crate::{Fault, Image, reason};
use sk_conditions::Budgets;
use std::alloc::{AllocError, Global};

/// How many rows of numbers a comparison may take that need all the steps of a row.
const MOST_ROWS: u32 = 4;

/// Whether the new filters answer every call as the old ones do, or as strictly, or a call to which they do not.
pub(crate) fn told_of_chains(
    alloc: Global,
    old: &[Image<'_>],
    new: &[Image<'_>],
    stricter: bool,
    difference: &mut Difference,
) -> Result<Fault, AllocError>
    ensures told { IfOk result (IsTold (chains_in old.now new.now)) }
    ensures stand { IfOk result (λ it. it.reason ≡ fine → IfOk (chains_in old.now new.now) (Stand stricter)) }
    ensures differ { IfOk result (λ it. it.reason ≡ differ
        → IfOk (chains_in old.now new.now) (Differ stricter difference.new)) }
    ensures followed { IfOk result (λ it. IfOk (chains_in old.now new.now) (λ chains. BothFollowed chains → it.reason ≢ unfollowed)) }
    ensures spent { IfOk result (λ it. IfOk (chains_in old.now new.now) (λ chains. NeitherParts chains → it.reason ≢ spent)) }
    ensures same { IfOk result (λ it. images_of old.now ≡ images_of new.now → IfOk (chains_in old.now new.now) (λ _. it.reason ≡ fine)) }
    ensures kept { IfOk result (λ it. it.reason ≢ differ → difference.new ≡ difference.old) }
    ensures memory { IsErr result → difference.new ≡ difference.old }
{
    let same = are_same(old, new);
    let old = match chain_of(alloc, 0, old)? {
        Ok(chain) => chain,
        Err(fault) => return Ok(fault),
    };
    let new = match chain_of(alloc, 1, new)? {
        Ok(chain) => chain,
        Err(fault) => return Ok(fault),
    };
    if same {
        return Ok(Fault::plain(reason::FINE));
    }
    let mut budgets = Budgets::of_rows(MOST_ROWS);
    match compared(alloc, relation_asked(stricter), &old, &new, &mut budgets)? {
        Found::Holds => Ok(Fault::plain(reason::FINE)),
        Found::Fails(it) => {
            *difference = it;
            Ok(Fault::plain(reason::DIFFER))
        }
        Found::Open if budgets.is_spent => Ok(Fault::plain(reason::SPENT)),
        Found::Open => Ok(Fault::plain(reason::UNFOLLOWED)),
    }
}
