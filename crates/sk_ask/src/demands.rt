//! What a policy demands of filters: the chain that answers, in place of each verdict, what is expected of it.
ghost use Rattle.std.specs.Prelude.{◌≡◌, ℕ, [], ◌∷◌, true, Ok, IfOk, IfErr};
ghost use Rattle.sk_engines.specs.Filters.{chained};
ghost use Rattle.sk_policy_text.specs.Expecting.{IsExpected};
ghost use Rattle.sk_policy_text.specs.PolicyTexts.{refusal_text};
ghost use Rattle.sk_policy_text.specs.Words.{words_of_text};
ghost use Rattle.sk_ask.specs.Complaints.{about};
ghost use Rattle.sk_ask.specs.Counts.{CountsReads};
ghost use Rattle.sk_ask.specs.Expects.{AreDemands, HasNoDemands, IsNotAlone};
ghost use Rattle.sk_ask.specs.Forms.{is_policy};

use crate::complaint::about;
use crate::expansion::policy_line;
use crate::fault::FileFault;
use crate::form::is_policy;
use crate::text::fault_text;
use crate::trouble::Trouble;
use sk_engines::attach_images;
use sk_filter::Chain;
use sk_names::Architecture;
use sk_policy_text::{Expectations, Refusal, expectations};
use std::alloc::Global;

/// What a policy demands of filters: of which architecture's calls it tells, whether it says what calls of others get, and the chain
/// that answers, in place of each verdict, what is expected of it.
#[derive(Drop)]
pub struct Demands {
    pub architecture: Architecture,
    pub says_others: bool,
    pub chain: Chain,
}

/// What the policy's text in the file with this name demands.
pub fn demands_in(alloc: Global, name: &str, text: &[u8]) -> Result<Demands, Trouble>
    ensures demands { IfOk result (AreDemands text.now) }
    ensures none { IfErr result (HasNoDemands name.now text.now) }
    ensures unread { (reads : ℕ) → CountsReads result reads reads }
{
    if !is_policy(text) {
        let what = "holds no expectations: expected the text of a policy";
        return Err(Trouble::Refused(about(alloc, name, what)?));
    }
    match expectations(alloc, text) {
        Ok(made) => attached(alloc, name, text, made),
        Err(Refusal::Memory) => Err(Trouble::Memory),
        Err(refusal) => Err(Trouble::Refused(policy_line(alloc, name, text, refusal)?)),
    }
}

// The demands with their chain.
fn attached(alloc: Global, name: &str, text: &[u8], made: Expectations) -> Result<Demands, Trouble>
    requires policy { is_policy text.now ≡ true }
    requires expected { IsExpected text.now made }
    ensures demands { IfOk result (AreDemands text.now) }
    ensures none { IfErr result (HasNoDemands name.now text.now) }
    ensures unread { (reads : ℕ) → CountsReads result reads reads }
{
    let Expectations {
        architecture,
        says_others,
        image,
    } = made;
    let chain = chain_alone(alloc, name, image)?;
    Ok(Demands {
        architecture,
        says_others,
        chain,
    })
}

// The chain of the filter with this image alone.
fn chain_alone(alloc: Global, name: &str, image: Vec<u8>) -> Result<Chain, Trouble>
    ensures chain { IfOk result (λ chain. chained 0 [] (image.items ∷ []) ≡ Ok chain) }
    ensures unattached { IfErr result (IsNotAlone name.now image.items) }
    ensures unread { (reads : ℕ) → CountsReads result reads reads }
{
    let images = vec![in alloc; image]?;
    match attach_images(alloc, &images)? {
        Ok(filters) => Ok(Chain::over(filters)),
        Err((_, why)) => {
            let what = fault_text(alloc, FileFault::Filter(None, why))?;
            Err(Trouble::Refused(about(alloc, name, &what)?))
        }
    }
}
