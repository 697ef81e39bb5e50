//! The instructions of cases: the value of the first one that a call meets.
ghost use Rattle.std.specs.Prelude.{◌≡◌, ◌<◌, ◌≤◌, ◌++◌, ◌∷◌, length, OnOk, IfErr};
ghost use Rattle.sk_profile.specs.Code.{answer};
ghost use Rattle.sk_policy.specs.declared.fault.CodeFault.TheVariants.{TooLong};
ghost use Rattle.sk_policy.specs.Code.{line_code, cases_code};

use crate::backward::{Backward, put_one};
use crate::fault::CodeFault;
use crate::line::put_line;
use sk_profile::instructions::answer;
use sk_terms::Choice;

/// A condition, of each of whose choices one term has to hold, and the value of the calls that meet it.
#[derive(Drop)]
pub struct Case {
    pub choices: Vec<Choice>,
    pub value: u32,
}

/// Answers the value of the first case that a call meets, and else another one.
pub fn put_cases(code: &mut Backward, cases: &[Case], otherwise: u32) -> Result<(), CodeFault>
    requires room { length code.old ≤ 4096 }
    ensures code { OnOk result (code.new ≡ cases_code cases.now otherwise ++ code.old) }
    ensures few { OnOk result (length code.new ≤ 4096) }
    ensures long { IfErr result (λ fault. fault ≡ TooLong → 4096 < length (cases_code cases.now otherwise ++ code.old)) }
{
    put_one(code, answer(otherwise))?;
    let mut left = cases;
    while let Some((last, before)) = left.split_last() {
        put_case(code, last)?;
        left = before;
    }
    Ok(())
}

// Answers the value of the calls that meet a condition, and goes on with the others.
fn put_case(code: &mut Backward, case: &Case) -> Result<(), CodeFault>
    requires room { length code.old ≤ 4096 }
    ensures code { OnOk result (code.new ≡ line_code case.now.choices.items 0 1 ++ (answer case.now.value ∷ code.old)) }
    ensures few { OnOk result (length code.new ≤ 4096) }
    ensures long { IfErr result (λ fault. fault ≡ TooLong → 4096 < length (line_code case.now.choices.items 0 1 ++ (answer case.now.value ∷ code.old))) }
{
    put_one(code, answer(case.value))?;
    put_line(code, &case.choices, 0, 1)
}
