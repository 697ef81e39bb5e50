//! A call that shows a verdict, and the filter that it comes from.
ghost use Rattle.std.specs.Prelude.{◌≡◌, ◌≢◌, [], true, IfOk, IfSome, IsSomeAnd, IsTrue, is_some};
ghost use Rattle.std.specs.List.{All};
ghost use Rattle.sk_show.specs.Examples.{IsExample, IsShownBy, plain_call};
ghost use Rattle.sk_when.specs.Verdicts.{IsJudged, BeginsPlain, have_verdict};

use crate::judged::Judged;
use sk_filter::Chain;
use sk_show::{Example, find, shown_by};
use std::alloc::{AllocError, Global};

/// One of these calls on which the verdict is the value. Where other verdicts may come, another call is searched for.
pub fn example_of(
    alloc: Global,
    chain: &Chain,
    judged: &[Judged],
    open: bool,
    first: u32,
    last: u32,
    value: u32,
) -> Result<Option<Example>, AllocError>
    requires judged { All (IsJudged chain.now first last) judged.now }
    ensures found { IfOk result (λ found. IfSome found (IsExample chain.now first last value)) }
    ensures each { IfOk result (λ found. chain.now ≢ [] → have_verdict judged.now value ≡ true → IsTrue (is_some found)) }
    ensures plain { IfOk result (λ found. BeginsPlain first judged.now → IsShownBy chain.now first last value (plain_call first)
        → IsSomeAnd found (λ example. example.call ≡ plain_call first)) }
{
    match find_among(chain, judged, first, last, value) {
        None if open => find(alloc, chain, first, last, value),
        found => Ok(found),
    }
}

// The first of these calls on which the verdict is the value.
fn find_among(
    chain: &Chain,
    judged: &[Judged],
    first: u32,
    last: u32,
    value: u32,
) -> Option<Example>
    requires judged { All (IsJudged chain.now first last) judged.now }
    ensures found { IfSome result (IsExample chain.now first last value) }
    ensures each { chain.now ≢ [] → have_verdict judged.now value ≡ true → IsTrue (is_some result) }
    ensures plain { BeginsPlain first judged.now → IsShownBy chain.now first last value (plain_call first)
        → IsSomeAnd result (λ example. example.call ≡ plain_call first) }
{
    for it in judged {
        if it.verdict == value {
            return shown_by(chain, first, last, value, it.call);
        }
    }
    None
}
