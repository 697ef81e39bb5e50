//! The instructions that ask a term.
ghost use Rattle.std.specs.Prelude.{◌≡◌, ◌+◌, ◌<◌, ◌≤◌, ◌++◌, length, OnOk, IfErr};
ghost use Rattle.sk_policy.specs.declared.fault.CodeFault.TheVariants.{TooLong};
ghost use Rattle.sk_policy.specs.Code.{bounds_code, range_code, term_code, placed_code};

use crate::backward::Backward;
use crate::fault::CodeFault;
use crate::test::{Bits, Test, put_test};
use sk_insn::MOST_INSNS;
use sk_profile::instructions::jump;
use sk_terms::Term;
use std::alloc::AllocError;

/// How far a term goes on by conditional jumps: these reach 255 instructions, some of which may be its own.
const NEAR: usize = 200;

/// The bits that a term asks for.
pub fn bits_of(term: &Term) -> Bits
    ensures register { result.register ≡ term.now.register }
    ensures mask { result.mask ≡ term.now.mask }
{
    Bits {
        register: term.register,
        mask: term.mask,
    }
}

// Asks for both bounds.
fn put_bounds(code: &mut Backward, term: &Term, held: u8, failed: u8) -> Result<(), AllocError>
    requires near { held ≤ 200 }
    requires near_too { failed ≤ 200 }
    ensures code { OnOk result (code.new ≡ bounds_code term.now held failed ++ code.old) }
{
    let before = code.len();
    put_test(code, Test::Above, bits_of(term), term.last, failed, held)?;
    let behind = (code.len() - before) as u8;
    put_test(
        code,
        Test::AtLeast,
        bits_of(term),
        term.first,
        0,
        behind + failed,
    )
}

// Asks whether the bits lie in the range.
fn put_range(code: &mut Backward, term: &Term, held: u8, failed: u8) -> Result<(), AllocError>
    requires near { held ≤ 200 }
    requires near_too { failed ≤ 200 }
    ensures code { OnOk result (code.new ≡ range_code term.now held failed ++ code.old) }
{
    if term.first == term.last {
        return put_test(code, Test::Is, bits_of(term), term.first, held, failed);
    }
    if term.first == 0 {
        return put_test(code, Test::Above, bits_of(term), term.last, failed, held);
    }
    if term.mask <= term.last {
        return put_test(code, Test::AtLeast, bits_of(term), term.first, held, failed);
    }
    put_bounds(code, term, held, failed)
}

#[tactic(auto, unfolding(crate::specs::Code::term_code))]
fn put_term(code: &mut Backward, term: &Term, held: u8, failed: u8) -> Result<(), AllocError>
    requires near { held ≤ 200 }
    requires near_too { failed ≤ 200 }
    ensures code { OnOk result (code.new ≡ term_code term.now held failed ++ code.old) }
{
    if term.inside {
        put_range(code, term, held, failed)
    } else {
        put_range(code, term, failed, held)
    }
}

#[tactic(auto, unfolding(crate::specs::Code::placed_code))]
fn put_reaching(
    code: &mut Backward,
    term: &Term,
    held: usize,
    failed: usize,
) -> Result<(), AllocError>
    requires far { held ≤ 4096 }
    requires far_too { failed ≤ 4096 }
    ensures code { OnOk result (code.new ≡ placed_code term.now held failed ++ code.old) }
{
    if held <= NEAR && failed <= NEAR {
        return put_term(code, term, held as u8, failed as u8);
    }
    code.put(jump(failed as u32))?;
    code.put(jump(1 + held as u32))?;
    put_term(code, term, 0, 1)
}

/// Asks a term, and goes on so many instructions further where it holds, and where it does not.
pub fn put_placed(
    code: &mut Backward,
    term: &Term,
    held: usize,
    failed: usize,
) -> Result<(), CodeFault>
    requires far { held ≤ 4096 }
    requires far_too { failed ≤ 4096 }
    ensures code { OnOk result (code.new ≡ placed_code term.now held failed ++ code.old) }
    ensures few { OnOk result (length code.new ≤ 4096) }
    ensures long { IfErr result (λ fault. fault ≡ TooLong → 4096 < length (placed_code term.now held failed ++ code.old)) }
{
    put_reaching(code, term, held, failed)?;
    if code.len() > MOST_INSNS {
        return Err(CodeFault::TooLong);
    }
    Ok(())
}
