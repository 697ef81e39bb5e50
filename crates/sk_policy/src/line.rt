//! The instructions that ask a condition: of each choice one of the terms holds. They are written from the last term to the first.
ghost use Rattle.std.specs.Prelude.{◌≡◌, ◌+◌, ◌<◌, ◌≤◌, ◌++◌, length, OnOk, IfErr};
ghost use Rattle.sk_policy.specs.declared.fault.CodeFault.TheVariants.{TooLong};
ghost use Rattle.sk_policy.specs.Code.{terms_code, choice_code, line_code};

use crate::backward::{Backward, put_one};
use crate::fault::CodeFault;
use crate::joined::{are_joined, put_joined};
use crate::term::put_placed;
use sk_profile::instructions::jump;
use sk_terms::{Choice, Term};

// Asks terms, each by itself: goes on so many instructions further where one of them holds, and where none does.
fn put_terms(
    code: &mut Backward,
    terms: &[Term],
    held: usize,
    failed: usize,
) -> Result<(), CodeFault>
    requires room { length code.old ≤ 4096 }
    requires held_there { held ≤ length code.old }
    requires failed_there { failed ≤ length code.old }
    ensures code { OnOk result (code.new ≡ terms_code terms.now held failed ++ code.old) }
    ensures few { OnOk result (length code.new ≤ 4096) }
    ensures long { IfErr result (λ fault. fault ≡ TooLong → 4096 < length (terms_code terms.now held failed ++ code.old)) }
{
    let Some((last, before)) = terms.split_last() else {
        return put_one(code, jump(failed as u32));
    };
    let end = code.len();
    put_placed(code, last, held, failed)?;
    let mut left = before;
    while let Some((term, others)) = left.split_last() {
        let behind = code.len() - end;
        put_placed(code, term, behind + held, 0)?;
        left = others;
    }
    Ok(())
}

// Asks a choice: goes on so many instructions further where one of the terms holds, and where none does.
fn put_choice(
    code: &mut Backward,
    terms: &[Term],
    held: usize,
    failed: usize,
) -> Result<(), CodeFault>
    requires room { length code.old ≤ 4096 }
    requires held_there { held ≤ length code.old }
    requires failed_there { failed ≤ length code.old }
    ensures code { OnOk result (code.new ≡ choice_code terms.now held failed ++ code.old) }
    ensures few { OnOk result (length code.new ≤ 4096) }
    ensures long { IfErr result (λ fault. fault ≡ TooLong → 4096 < length (choice_code terms.now held failed ++ code.old)) }
{
    let Some((first, _others)) = terms.split_first() else {
        return put_terms(code, terms, held, failed);
    };
    if are_joined(first, terms, held, failed) {
        return put_joined(code, first, terms, held, failed);
    }
    put_terms(code, terms, held, failed)
}

/// Asks a condition: goes on so many instructions further where a call meets it, and where it does not.
pub fn put_line(
    code: &mut Backward,
    choices: &[Choice],
    held: usize,
    failed: usize,
) -> Result<(), CodeFault>
    requires room { length code.old ≤ 4096 }
    requires held_there { held ≤ length code.old }
    requires failed_there { failed ≤ length code.old }
    ensures code { OnOk result (code.new ≡ line_code choices.now held failed ++ code.old) }
    ensures few { OnOk result (length code.new ≤ 4096) }
    ensures long { IfErr result (λ fault. fault ≡ TooLong → 4096 < length (line_code choices.now held failed ++ code.old)) }
{
    let Some((last, before)) = choices.split_last() else {
        return put_one(code, jump(held as u32));
    };
    let end = code.len();
    put_choice(code, &last.terms, held, failed)?;
    let mut left = before;
    while let Some((choice, others)) = left.split_last() {
        let behind = code.len() - end;
        put_choice(code, &choice.terms, 0, behind + failed)?;
        left = others;
    }
    Ok(())
}
