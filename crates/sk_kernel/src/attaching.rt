//! How a filter is attached: seccomp(2), SECCOMP_SET_MODE_FILTER.

ghost use Rattle.std.specs.Prelude.{◌≡◌, ◌+◌, ◌∷◌, nat_lt, length, if◌then◌else◌, IsTrue, IfOk, OnOk, OnErr, MatchResult, Ok, Err};
ghost use Rattle.sk_filter.specs.PathLimit.{path_limit, cost_of};
ghost use Rattle.sk_world.specs.declared.errno.Errno.TheVariants.{Enomem};
ghost use Rattle.sk_world.specs.Errno.{answer_of};
ghost use Rattle.sk_machine.specs.Images.{filter_image};
ghost use Rattle.sk_machine.specs.Authority.{authority_of, filter_of, filtered, after_attach};
ghost use Rattle.sk_machine.specs.Memory.{is_read};
ghost use Rattle.sk_kernel.specs.views.Own.{reauthorised};

use sk_filter::{Chain, ChainFault, Checked, check};
use sk_insn::{Insn, read_image};
use sk_machine::Images;
use sk_world::{Body, Errno};
use std::alloc::{AllocError, Global};
use std::mem::replace;

/// Attaches the filter of an image to a process. The image is read before the process's rights are asked for.
pub(crate) fn attach(
    body: &mut Body,
    declared: &Images,
    alloc: Global,
    flags: u32,
    image: u64,
) -> Result<Result<(), Errno>, AllocError>
    ensures answer { IfOk result (λ answer. answer ≡ answer_of (after_attach declared.now flags image (authority_of body.old))) }
    ensures body { OnOk result (body.new ≡ reauthorised (after_attach declared.now flags image (authority_of body.old)) body.old) }
    ensures flags { OnErr result (flags ≡ 0) }
    ensures memory { OnErr result (IsTrue (is_read declared.now image)) }
    ensures kept { OnErr result (body.new ≡ body.old) }
{
    if flags != 0 {
        return Ok(Err(Errno::Einval));
    }
    match filter_of(declared, alloc, image)? {
        Ok(insns) => filter(body, alloc, insns),
        Err(errno) => Ok(Err(errno)),
    }
}

// The filter of an image that a call names.
fn filter_of(
    declared: &Images,
    alloc: Global,
    image: u64,
) -> Result<Result<Vec<Insn>, Errno>, AllocError>
    ensures program { IfOk result (λ read. MatchResult read
        (λ insns. filter_of (filter_image declared.now image) ≡ Ok insns.items)
        (λ errno. filter_of (filter_image declared.now image) ≡ Err errno)) }
    ensures memory { OnErr result (IsTrue (is_read declared.now image)) }
{
    let Some(bytes) = declared.filters.get(image as usize) else {
        return Ok(Err(Errno::Efault));
    };
    match read_image(alloc, bytes)? {
        Ok(insns) => Ok(Ok(insns)),
        Err(_) => Ok(Err(Errno::Einval)),
    }
}

fn filter(body: &mut Body, alloc: Global, insns: Vec<Insn>) -> Result<Result<(), Errno>, AllocError>
    ensures answer { IfOk result (λ answer. answer ≡ answer_of (filtered (authority_of body.old) (Ok insns.items))) }
    ensures body { OnOk result (body.new ≡ reauthorised (filtered (authority_of body.old) (Ok insns.items)) body.old) }
    ensures kept { OnErr result (body.new ≡ body.old) }
{
    if !body.creds.is_privileged() && !body.creds.no_new_privs {
        return Ok(Err(Errno::Eacces));
    }
    match check(insns) {
        Ok(program) => lengthen(&mut body.chain, alloc, program),
        Err(_) => Ok(Err(Errno::Einval)),
    }
}

fn lengthen(
    chain: &mut Chain,
    alloc: Global,
    program: Checked,
) -> Result<Result<(), Errno>, AllocError>
    ensures answer { IfOk result (λ answer. answer ≡ (if nat_lt path_limit (length program + cost_of chain.old) then Err Enomem else Ok tt)) }
    ensures chain { OnOk result (chain.new ≡ (if nat_lt path_limit (length program + cost_of chain.old) then chain.old else program ∷ chain.old)) }
    ensures kept { OnErr result (chain.new ≡ chain.old) }
{
    match replace(chain, Chain::empty(alloc)).attach(program) {
        Ok(longer) => {
            *chain = longer;
            Ok(Ok(()))
        }
        Err((kept, _, ChainFault::PathLimit)) => {
            *chain = kept;
            Ok(Err(Errno::Enomem))
        }
        Err((kept, _, ChainFault::Memory)) => {
            *chain = kept;
            Err(AllocError)
        }
    }
}
