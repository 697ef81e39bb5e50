//! What is said of an entry that parts two calls which Linux takes for one.
ghost use Rattle.std.specs.Prelude.{◌≡◌, ◌++◌, OnOk, string_bytes};
ghost use Rattle.std.specs.Fmt.{decimal};
ghost use Rattle.sk_profile.specs.Sayings.{low};
ghost use Rattle.sk_profile_json.specs.PartingTexts.{below_text, beyond_text, compared_text, each_text, masked_text, narrow_mask, operator_text, other_text, parting_text, repair_text};

use crate::Parting;
use crate::text::push_entry;
use sk_profile::{Condition, Test};
use std::alloc::AllocError;
use std::fmt::Write;

/// The lower half of a number.
const LOWER: u64 = 0xFFFF_FFFF;

/// Adds which comparison of an entry parts two calls that Linux takes for one, and how it is written so that it does not, without a line's end.
pub fn push_parting(text: &mut String, it: &Parting) -> Result<(), AllocError>
    ensures text { OnOk result (string_bytes text.new ≡ string_bytes text.old ++ parting_text it.now) }
{
    push_entry(text, it.entry)?;
    push_compared(text, &it.condition)?;
    push_repair(text, narrow_mask(it.condition.test), &it.condition)
}

fn push_compared(text: &mut String, it: &Condition) -> Result<(), AllocError>
    ensures text { OnOk result (string_bytes text.new ≡ string_bytes text.old ++ compared_text it.now) }
{
    text.push_str(operator_text(it.test))?;
    push_beyond(text, u64::from(it.index))
}

fn push_beyond(text: &mut String, index: u64) -> Result<(), AllocError>
    ensures text { OnOk result (string_bytes text.new ≡ string_bytes text.old ++ beyond_text index) }
{
    text.push_str(" compares more of args[")?;
    push_number(text, index)?;
    text.push_str("] than Linux reads; ")
}

fn push_number(text: &mut String, number: u64) -> Result<(), AllocError>
    ensures text { OnOk result (string_bytes text.new ≡ string_bytes text.old ++ decimal number) }
{
    write!(text, "{number}")
}

fn operator_text(test: Test) -> &'static str
    ensures text { result.now ≡ operator_text test }
{
    match test {
        Test::Is => "SCMP_CMP_EQ",
        Test::IsNot => "SCMP_CMP_NE",
        Test::Below => "SCMP_CMP_LT",
        Test::AtMost => "SCMP_CMP_LE",
        Test::Above => "SCMP_CMP_GT",
        Test::AtLeast => "SCMP_CMP_GE",
        Test::Masked(_) => "SCMP_CMP_MASKED_EQ",
    }
}

// The mask by which the lower halves are compared as the numbers were.
fn narrow_mask(test: Test) -> Option<u64>
    ensures mask { result ≡ narrow_mask test }
{
    match test {
        Test::Is => Some(LOWER),
        Test::Masked(mask) if low(mask) == mask || low(mask) == 0 => None,
        Test::Masked(mask) => Some(low(mask)),
        _ => None,
    }
}

fn low(number: u64) -> u64
    ensures low { result ≡ low number }
{
    number % 0x1_0000_0000
}

fn push_repair(text: &mut String, mask: Option<u64>, it: &Condition) -> Result<(), AllocError>
    ensures text { OnOk result (string_bytes text.new ≡ string_bytes text.old ++ repair_text mask it.now) }
{
    match mask {
        Some(mask) => push_masked(text, mask, low(it.value)),
        None => push_other(text, it.test, it.value),
    }
}

fn push_masked(text: &mut String, mask: u64, value: u64) -> Result<(), AllocError>
    ensures text { OnOk result (string_bytes text.new ≡ string_bytes text.old ++ masked_text mask value) }
{
    text.push_str("compare the lower 32 by \"op\": \"SCMP_CMP_MASKED_EQ\", \"value\": ")?;
    push_number(text, mask)?;
    text.push_str(", \"valueTwo\": ")?;
    push_number(text, value)
}

fn push_other(text: &mut String, test: Test, value: u64) -> Result<(), AllocError>
    ensures text { OnOk result (string_bytes text.new ≡ string_bytes text.old ++ other_text test value) }
{
    match test {
        Test::Masked(_) => text.push_str("leave the comparison out"),
        Test::IsNot => {
            text.push_str(each_text())?;
            push_below(text, value)
        }
        _ => text.push_str(each_text()),
    }
}

// What may stand for the values below one.
fn push_below(text: &mut String, value: u64) -> Result<(), AllocError>
    ensures text { OnOk result (string_bytes text.new ≡ string_bytes text.old ++ below_text value) }
{
    text.push_str("; where the default refuses, SCMP_CMP_LT with ")?;
    push_number(text, value)?;
    text.push_str(" does for those below")
}

fn each_text() -> &'static str
    ensures text { result.now ≡ each_text }
{
    "compare the lower 32 with each value in an entry of its own, by \"op\": \"SCMP_CMP_MASKED_EQ\", \"value\": 4294967295"
}
