//! The least policy that allows some calls.
ghost use Rattle.std.specs.Prelude.{◌≡◌, ◌++◌, IfOk, OnOk, string_bytes};
ghost use Rattle.sk_policy_when.specs.Allowing.{allow_text, arch_line, default_line, is_x86_64, written_for};

use sk_arguments::Naming;
use sk_filter::push_verdict;
use sk_names::Architecture;
use sk_when::{ConditionalRow, Names, when_text};
use std::alloc::{AllocError, Global};

/// SECCOMP_RET_ERRNO with EPERM.
const REFUSED: u32 = 0x0005_0001;

/// The text of the policy that allows what rows say, of calls of an architecture, and refuses all other calls. It is one of x86-64 for
/// x32 too.
#[tactic(auto, unfolding(crate::specs::Allowing::allow_text))]
pub fn allow_text(
    alloc: Global,
    naming: Naming,
    architecture: Architecture,
    rows: &[ConditionalRow],
) -> Result<String, AllocError>
    ensures text { IfOk result (λ text. string_bytes text ≡ allow_text naming architecture rows.now) }
{
    let architecture = written_for(architecture);
    let mut text = String::new(alloc);
    push_arch(&mut text, architecture)?;
    push_default(&mut text)?;
    let names = Names {
        naming,
        architecture,
    };
    let rows = when_text(alloc, names, rows)?;
    text.push_str(&rows)?;
    Ok(text)
}

fn written_for(architecture: Architecture) -> Architecture
    ensures written { result ≡ written_for architecture }
{
    match architecture {
        Architecture::X32 => Architecture::X86_64,
        _ => architecture,
    }
}

fn push_arch(text: &mut String, architecture: Architecture) -> Result<(), AllocError>
    ensures text { OnOk result (string_bytes text.new ≡ string_bytes text.old ++ arch_line architecture) }
{
    if is_x86_64(architecture) {
        return Ok(());
    }
    text.push_str("arch ")?;
    text.push_str(architecture.text())?;
    text.push_str("\n")
}

fn is_x86_64(architecture: Architecture) -> bool
    ensures is { result ≡ is_x86_64 architecture }
{
    matches!(architecture, Architecture::X86_64)
}

fn push_default(text: &mut String) -> Result<(), AllocError>
    ensures text { OnOk result (string_bytes text.new ≡ string_bytes text.old ++ default_line) }
{
    text.push_str("default ")?;
    push_verdict(text, REFUSED)?;
    text.push_str("\n")
}
