//! What is said of a call below its line: the entries of profiles that part it from the one that Linux takes it for.
ghost use Rattle.std.specs.Prelude.{◌≡◌, ◌++◌, IfOk, OnOk, flat_map, map, string_bytes};
ghost use Rattle.std.specs.List.{zip};
ghost use Rattle.std.specs.Option.{option_map};
ghost use Rattle.sk_profile.specs.Views.{profile_of};
ghost use Rattle.sk_profile_json.specs.Partings.{IsSaidBy};
ghost use Rattle.sk_ask.specs.Forms.{unmarked};
ghost use Rattle.sk_ask.specs.Lints.{AreSaid, entry_line, file_remark};
ghost use Rattle.sk_ask.specs.Said.{all_said, said_of};

use crate::complaint::shown_name;
use crate::form::unmarked;
use sk_insn::Record;
use sk_profile::Profile;
use sk_profile_json::{Context, Parting, partings, profile_of_bytes, push_parting};
use sk_survey::taken_as;
use sk_when::Remarks;
use std::alloc::{AllocError, Global};

/// A file's name, and the profile that its bytes say, if they say one.
#[derive(Drop)]
pub struct Said<'a> {
    pub name: &'a str,
    pub profile: Option<Profile>,
}

/// Files with the profiles in them.
#[derive(Drop)]
pub struct Entries<'a> {
    pub alloc: Global,
    pub files: Vec<Said<'a>>,
}

impl Remarks for Entries<'_> {
    ghost use Rattle.sk_ask.specs.Lints.{remarks_on};
    ghost use Rattle.sk_ask.specs.Said.{all_said};

    ghost remark = { λ it call. remarks_on (all_said it) call };

    fn push(&self, text: &mut String, call: &Record) -> Result<(), AllocError> {
        push_files(self.alloc, text, &self.files, call)
    }
}

/// Files with these names and bytes, as far as there are both.
pub fn entries_of<'a>(
    alloc: Global,
    context: &Context<'_>,
    names: &'a [String],
    files: &[Vec<u8>],
) -> Result<Entries<'a>, AllocError>
    ensures said { IfOk result (λ it. AreSaid context.now (zip (map string_bytes names.now) (map (λ file. file.items) files.now)) (all_said it)) }
{
    let mut said = Vec::new(alloc);
    let mut rest = names;
    let mut left = files;
    while let Some((name, other_names)) = rest.split_first() {
        let Some((file, other_files)) = left.split_first() else {
            break;
        };
        said.push(Said {
            name: name.as_str(),
            profile: profile_in(alloc, context, file)?,
        })?;
        rest = other_names;
        left = other_files;
    }
    Ok(Entries { alloc, files: said })
}

// The profile that a file says, if it says one.
fn profile_in(
    alloc: Global,
    context: &Context<'_>,
    file: &[u8],
) -> Result<Option<Profile>, AllocError>
    ensures said { IfOk result (λ profile. IsSaidBy context.now (unmarked file.now) (option_map profile_of profile)) }
{
    profile_of_bytes(alloc, context, unmarked(file))
}

fn push_files(
    alloc: Global,
    text: &mut String,
    files: &[Said<'_>],
    call: &Record,
) -> Result<(), AllocError>
    ensures text { OnOk result (string_bytes text.new ≡ string_bytes text.old ++ flat_map (file_remark call.now) (map said_of files.now)) }
{
    for file in files {
        push_file(alloc, text, file, call)?;
    }
    Ok(())
}

#[tactic(auto, unfolding(crate::specs::Lints::file_remark))]
fn push_file(
    alloc: Global,
    text: &mut String,
    said: &Said<'_>,
    call: &Record,
) -> Result<(), AllocError>
    ensures text { OnOk result (string_bytes text.new ≡ string_bytes text.old ++ file_remark call.now (said_of said.now)) }
{
    match &said.profile {
        Some(profile) => {
            let all = partings(alloc, profile, call, &taken_as(*call))?;
            push_lines(text, &shown_name(alloc, said.name)?, &all)
        }
        None => Ok(()),
    }
}

fn push_lines(text: &mut String, shown: &str, all: &[Parting]) -> Result<(), AllocError>
    ensures text { OnOk result (string_bytes text.new ≡ string_bytes text.old ++ flat_map (entry_line shown.now) all.now) }
{
    for it in all {
        push_line(text, shown, *it)?;
    }
    Ok(())
}

fn push_line(text: &mut String, shown: &str, it: Parting) -> Result<(), AllocError>
    ensures text { OnOk result (string_bytes text.new ≡ string_bytes text.old ++ entry_line shown.now it) }
{
    text.push_str("  ")?;
    text.push_str(shown)?;
    text.push_str(": ")?;
    push_parting(text, &it)?;
    text.push_str("\n")
}
