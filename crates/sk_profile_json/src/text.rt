//! What is said of a profile that is refused.
ghost use Rattle.std.specs.Prelude.{◌≡◌, ◌+◌, ◌++◌, IfOk, OnOk, codes, flat_map, string_bytes};
ghost use Rattle.std.specs.Fmt.{decimal};
ghost use Rattle.std.specs.Option.{option_map};
ghost use Rattle.sk_profile_json.specs.Texts.{refusal_text, not_json_text, slip_text, extra_text, absence_text, reason_text, clash_text, architecture_at, by_audit, is_of_x32, is_x86_64, name_at, of_text, shown_text, argument_text, arguments_text, both_text, call_text, fault_text, place_text, wrong_text, entry_text, keys_text, expected_text, contradiction_text};

use crate::answer::Refusal;
use crate::{Absence, Extra, Fault, Field, Place, Slip, Wrong};
use sk_names::{Architecture, name};
use sk_profile::Clash;
use std::alloc::{AllocError, Global};
use std::fmt::Write;

/// Where a profile is wrong, what is wrong with it, and what was expected, without its file's name and without a line's end.
pub fn refusal_text(alloc: Global, refusal: Refusal) -> Result<String, AllocError>
    ensures text { IfOk result (λ text. string_bytes text ≡ refusal_text refusal) }
{
    let mut text = String::new(alloc);
    match refusal {
        Refusal::NoMachine => {
            text.push_str(
                "no filter is made of a profile for s390x: its arguments have their highest byte first",
            )?;
        }
        Refusal::NotText => {
            text.push_str("is no text in UTF-8: expected the JSON of a profile")?;
        }
        Refusal::NotJson(slip) => push_not_json(&mut text, slip)?,
        Refusal::KeyTwice => text.push_str("a key comes twice in one object")?,
        Refusal::NoProfile(why) => push_absence(&mut text, why)?,
        Refusal::Wrong(fault) => push_fault(&mut text, fault)?,
        Refusal::Clashes(it) => push_clash(&mut text, it)?,
        Refusal::TooLong => {
            text.push_str("its filter would have more than 4096 instructions")?;
        }
    }
    Ok(text)
}

fn push_not_json(text: &mut String, slip: Option<Slip>) -> Result<(), AllocError>
    ensures text { OnOk result (string_bytes text.new ≡ string_bytes text.old ++ not_json_text slip) }
{
    match slip {
        None => text.push_str("is no JSON: expected the JSON of a profile, no more than 128 deep"),
        Some(slip) => push_slip(text, slip),
    }
}

fn push_slip(text: &mut String, slip: Slip) -> Result<(), AllocError>
    ensures text { OnOk result (string_bytes text.new ≡ string_bytes text.old ++ slip_text slip) }
{
    let Slip {
        line,
        column,
        extra,
    } = slip;
    write!(text, "line {line}, column {column}: ")?;
    push_extra(text, extra)
}

fn push_extra(text: &mut String, extra: Extra) -> Result<(), AllocError>
    ensures text { OnOk result (string_bytes text.new ≡ string_bytes text.old ++ extra_text extra) }
{
    match extra {
        Extra::Comment => text.push_str("a comment begins: JSON has none"),
        Extra::Comma => {
            text.push_str("a comma stands before the bracket that closes: JSON has none there")
        }
    }
}

fn push_absence(text: &mut String, why: Absence) -> Result<(), AllocError>
    ensures text { OnOk result (string_bytes text.new ≡ string_bytes text.old ++ absence_text why) }
{
    text.push_str("no seccomp profile: ")?;
    text.push_str(reason_text(why))
}

fn reason_text(why: Absence) -> &'static str
    ensures text { result.now ≡ reason_text why }
{
    match why {
        Absence::Unsaid => {
            "SecurityOpt names none, so docker's own holds, unless its daemon has another or the container is privileged"
        }
        Absence::Builtin => "SecurityOpt has seccomp=builtin, which is docker's own",
        Absence::Unconfined => "SecurityOpt has seccomp=unconfined, so docker attaches no filter",
        Absence::NotJson => "what SecurityOpt has behind seccomp= is no JSON",
    }
}

fn push_clash(text: &mut String, it: Clash) -> Result<(), AllocError>
    ensures text { OnOk result (string_bytes text.new ≡ string_bytes text.old ++ clash_text it) }
{
    push_both(text, it.first, it.second)?;
    text.push_str(" clash: both fit ")?;
    push_shown(
        text,
        architecture_at(it.arch, it.number),
        it.number,
        &it.args,
    )?;
    text.push_str(", and they say different things")
}

// A call with its arguments.
fn push_shown(
    text: &mut String,
    on: Option<Architecture>,
    number: u32,
    args: &[u64],
) -> Result<(), AllocError>
    ensures text { OnOk result (string_bytes text.new ≡ string_bytes text.old ++ shown_text on number args.now) }
{
    push_call(text, name_at(on, number), number)?;
    text.push_str("(")?;
    push_arguments(text, args)?;
    text.push_str(")")?;
    push_of(text, on)
}

// The architecture of a call: its numbers are those of x32 from bit 30 on.
fn architecture_at(arch: u32, number: u32) -> Option<Architecture>
    ensures at { result ≡ architecture_at arch number }
{
    if is_of_x32(arch, number) {
        Some(Architecture::X32)
    } else {
        by_audit(arch)
    }
}

fn is_of_x32(arch: u32, number: u32) -> bool
    ensures x32 { result ≡ is_of_x32 arch number }
{
    arch == Architecture::X32.audit() && 0x4000_0000 <= number
}

// The first architecture with a number of linux/audit.h.
fn by_audit(arch: u32) -> Option<Architecture>
    ensures first { result ≡ by_audit arch }
{
    Architecture::ALL
        .iter()
        .copied()
        .find(|architecture| architecture.audit() == arch)
}

fn name_at(on: Option<Architecture>, number: u32) -> Option<&'static str>
    ensures name { option_map (λ name. name.now) result ≡ name_at on number }
{
    name(on?, number)
}

// Which architecture's call it is, unless it is x86-64's.
fn push_of(text: &mut String, on: Option<Architecture>) -> Result<(), AllocError>
    ensures text { OnOk result (string_bytes text.new ≡ string_bytes text.old ++ of_text on) }
{
    match on {
        Some(architecture) if !is_x86_64(architecture) => {
            text.push_str(" of ")?;
            text.push_str(architecture.text())
        }
        _ => Ok(()),
    }
}

fn is_x86_64(architecture: Architecture) -> bool
    ensures is { result ≡ is_x86_64 architecture }
{
    matches!(architecture, Architecture::X86_64)
}

fn push_arguments(text: &mut String, args: &[u64]) -> Result<(), AllocError>
    ensures text { OnOk result (string_bytes text.new ≡ string_bytes text.old ++ arguments_text args.now) }
{
    let Some((first, others)) = args.split_first() else {
        return Ok(());
    };
    push_argument(text, *first)?;
    push_others(text, others)
}

fn push_others(text: &mut String, args: &[u64]) -> Result<(), AllocError>
    ensures text { OnOk result (string_bytes text.new ≡
        string_bytes text.old ++ flat_map (λ other. codes ", " ++ argument_text other) args.now) }
{
    for argument in args {
        push_other(text, *argument)?;
    }
    Ok(())
}

fn push_other(text: &mut String, argument: u64) -> Result<(), AllocError>
    ensures text { OnOk result (string_bytes text.new ≡ string_bytes text.old ++ (codes ", " ++ argument_text argument)) }
{
    text.push_str(", ")?;
    push_argument(text, argument)
}

#[tactic(auto, unfolding(crate::specs::Texts::argument_text))]
fn push_argument(text: &mut String, argument: u64) -> Result<(), AllocError>
    ensures text { OnOk result (string_bytes text.new ≡ string_bytes text.old ++ argument_text argument) }
{
    write!(text, "0x{argument:x}")
}

fn push_both(text: &mut String, first: usize, second: usize) -> Result<(), AllocError>
    ensures text { OnOk result (string_bytes text.new ≡ string_bytes text.old ++ both_text first second) }
{
    text.push_str("entries ")?;
    push_count(text, first)?;
    text.push_str(" and ")?;
    push_count(text, second)?;
    text.push_str(" of syscalls")
}

fn push_call(text: &mut String, name: Option<&'static str>, number: u32) -> Result<(), AllocError>
    ensures text { OnOk result (string_bytes text.new ≡ string_bytes text.old ++ call_text number (option_map (λ name. name.now) name.entry)) }
{
    match name {
        Some(name) => text.push_str(name),
        None => write!(text, "{number}"),
    }
}

// The number, from 1 on, of what has this number from 0 on.
fn push_count(text: &mut String, number: usize) -> Result<(), AllocError>
    ensures text { OnOk result (string_bytes text.new ≡ string_bytes text.old ++ decimal (number + 1)) }
{
    let count = number as u128 + 1;
    write!(text, "{count}")
}

fn push_fault(text: &mut String, fault: Fault) -> Result<(), AllocError>
    ensures text { OnOk result (string_bytes text.new ≡ string_bytes text.old ++ fault_text fault) }
{
    push_place(text, fault.place)?;
    push_wrong(text, fault.place, fault.wrong)
}

fn push_place(text: &mut String, place: Place) -> Result<(), AllocError>
    ensures text { OnOk result (string_bytes text.new ≡ string_bytes text.old ++ place_text place) }
{
    match place {
        Place::Profile => Ok(()),
        Place::Entry(entry) => push_entry(text, entry),
        Place::Argument(entry, argument) => {
            push_entry(text, entry)?;
            text.push_str("item ")?;
            push_count(text, argument)?;
            text.push_str(" of args: ")
        }
    }
}

/// `entry N of syscalls: `
pub(crate) fn push_entry(text: &mut String, entry: usize) -> Result<(), AllocError>
    ensures text { OnOk result (string_bytes text.new ≡ string_bytes text.old ++ entry_text entry) }
{
    text.push_str("entry ")?;
    push_count(text, entry)?;
    text.push_str(" of syscalls: ")
}

fn push_wrong(text: &mut String, place: Place, wrong: Wrong) -> Result<(), AllocError>
    ensures text { OnOk result (string_bytes text.new ≡ string_bytes text.old ++ wrong_text place wrong) }
{
    match wrong {
        Wrong::NotAnObject => text.push_str("expected an object"),
        Wrong::UnknownKey(key) => {
            text.push_str("key ")?;
            push_count(text, key)?;
            text.push_str(" is not known: expected ")?;
            text.push_str(keys_text(place))
        }
        Wrong::Missing(field) => {
            write!(
                text,
                "{}: missing: expected {}",
                field.key(),
                expected_text(field)
            )
        }
        Wrong::NotTaken(field) => {
            write!(text, "{}: expected {}", field.key(), expected_text(field))
        }
        Wrong::Contradicts(field) => {
            write!(text, "{}: {}", field.key(), contradiction_text(field))
        }
    }
}

fn keys_text(place: Place) -> &'static str
    ensures text { result.now ≡ keys_text place }
{
    match place {
        Place::Profile => {
            "defaultAction, defaultErrnoRet, defaultErrno, architectures, archMap, flags, listenerPath, listenerMetadata or syscalls"
        }
        Place::Entry(_) => {
            "names, name, action, errnoRet, errno, args, comment, includes or excludes"
        }
        Place::Argument(_, _) => "index, value, valueTwo or op",
    }
}

fn expected_text(field: Field) -> &'static str
    ensures text { result.now ≡ expected_text field }
{
    match field {
        Field::DefaultAction => "an action as SCMP_ACT_ERRNO, and not SCMP_ACT_NOTIFY",
        Field::DefaultErrnoRet | Field::ErrnoRet =>
            "a number up to 4094, or beside SCMP_ACT_TRACE up to 65535",
        Field::DefaultErrno | Field::Errno => "the name of an error",
        Field::Architectures =>
            "a list of names as SCMP_ARCH_X86, with that of the machine among them",
        Field::ArchMap => "a list of objects with architecture and subArchitectures",
        Field::Syscalls => "a list of entries",
        Field::Names => "a list of names of calls, with one at least",
        Field::Name => "the name of a call",
        Field::Action => "an action as SCMP_ACT_ALLOW",
        Field::Args => "a list of comparisons",
        Field::Includes | Field::Excludes =>
            "an object with lists of names arches and caps, and a version minKernel as 4.8",
        Field::Index => "the number of an argument, from 0 to 5",
        Field::Value | Field::ValueTwo => "a number up to 18446744073709551615",
        Field::Op => "an operator as SCMP_CMP_EQ",
        _ => "another value",
    }
}

fn contradiction_text(field: Field) -> &'static str
    ensures text { result.now ≡ contradiction_text field }
{
    match field {
        Field::ArchMap => "beside architectures: expected one of the two",
        Field::DefaultErrnoRet | Field::ErrnoRet =>
            "expected only beside SCMP_ACT_ERRNO or SCMP_ACT_TRACE",
        Field::DefaultErrno => "expected the name of the error in defaultErrnoRet, beside it",
        Field::Name => "beside names: expected one of the two",
        Field::Action => "who is notified of write is told so by write: expected another action",
        Field::Errno => "expected the name of the error in errnoRet, beside it",
        Field::Args => "expected one comparison of each argument at most",
        Field::ValueTwo => "expected 0, or beside SCMP_CMP_MASKED_EQ no bit outside of value",
        _ => "contradicts another field",
    }
}
