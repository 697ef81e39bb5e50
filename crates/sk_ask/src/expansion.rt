//! What files stand for: a profile, a policy and a text in another form for its filter, and any other file for its bytes.
ghost use Rattle.std.specs.Prelude.{◌≡◌, ℕ, true, None, IfOk, IfErr, length, map, string_bytes};
ghost use Rattle.sk_forms.specs.Listings.{listing_of};
ghost use Rattle.sk_profile_json.specs.Forms.{is_profile};
ghost use Rattle.sk_policy_text.specs.PolicyTexts.{refusal_text as policy_refusal_text};
ghost use Rattle.sk_policy_text.specs.Words.{words_of_text};
ghost use Rattle.sk_profile_json.specs.Texts.{refusal_text};
ghost use Rattle.sk_ask.specs.Complaints.{about};
ghost use Rattle.sk_ask.specs.Counts.{CountsReads};
ghost use Rattle.sk_ask.specs.Orders.{taken_turned, StandsAs};
ghost use Rattle.sk_ask.specs.Forms.{is_policy};
ghost use Rattle.sk_ask.specs.Kinds.{kind_of};
ghost use Rattle.sk_ask.specs.Expanding.{is_passed_over, note_lines, StandsFor, StandsForFilter, StandsForPolicy, StandsForText, StandFor, HasNoFilter, TextHasNoFilter, IsFirstWithout};

use crate::complaint::about;
use crate::form::{is_policy, unmarked};
use crate::kind::kind_of;
use crate::manner::Manner;
use crate::order::taken_turned;
use crate::trouble::Trouble;
use sk_forms::{is_nearly_decimals, listed};
use sk_profile_json::{Context, Refusal, is_profile, made, refusal_text};
use std::alloc::{AllocError, Global};

/// The images that files stand for, in the files' order, and the lines of what is told of them beside.
#[derive(Drop)]
pub struct Expansion {
    pub images: Vec<Vec<u8>>,
    pub notes: Vec<u8>,
}

/// The image that one file stands for, and the lines of what is told of it beside.
#[derive(Drop)]
struct Standing {
    image: Vec<u8>,
    notes: Vec<u8>,
}

/// What these files stand for, with profiles as they are to hold there, or why the first that stands for nothing does not.
pub fn expanded(
    alloc: Global,
    manner: Manner,
    context: &Context<'_>,
    names: &[String],
    files: &[Vec<u8>],
) -> Result<Expansion, Trouble>
    requires each { length files.now ≡ length names.now }
    ensures stand { IfOk result (λ it. StandFor manner context.now (map string_bytes names.now) (map (λ file. file.items) files.now) (map (λ image. image.items) it.images.items) it.notes.items) }
    ensures each { IfOk result (λ it. length it.images.items ≡ length names.now) }
    ensures without { IfErr result (IsFirstWithout manner context.now (map string_bytes names.now) (map (λ file. file.items) files.now)) }
    ensures unread { (reads : ℕ) → CountsReads result reads reads }
{
    let mut images = Vec::new(alloc);
    let mut notes = Vec::new(alloc);
    let mut rest = names;
    let mut left = files;
    while let Some((name, other_names)) = rest.split_first() {
        let Some((file, other_files)) = left.split_first() else {
            break;
        };
        let standing = stood_for(alloc, manner, context, name.as_str(), file)?;
        images.push(standing.image)?;
        notes.extend_from_slice(&standing.notes)?;
        rest = other_names;
        left = other_files;
    }
    Ok(Expansion { images, notes })
}

// What the file with this name stands for.
fn stood_for(
    alloc: Global,
    manner: Manner,
    context: &Context<'_>,
    name: &str,
    file: &[u8],
) -> Result<Standing, Trouble>
    ensures stands { IfOk result (λ it. StandsFor manner context.now name.now file.now it.image.items it.notes.items) }
    ensures without { IfErr result (HasNoFilter manner context.now name.now file.now) }
    ensures unread { (reads : ℕ) → CountsReads result reads reads }
{
    of_text(alloc, manner, context, name, unmarked(file))
}

// What a file stands for that has no byte order mark, or has lost it.
fn of_text(
    alloc: Global,
    manner: Manner,
    context: &Context<'_>,
    name: &str,
    file: &[u8],
) -> Result<Standing, Trouble>
    ensures stands { IfOk result (λ it. StandsForText manner context.now name.now file.now it.image.items it.notes.items) }
    ensures without { IfErr result (TextHasNoFilter manner context.now name.now file.now) }
    ensures unread { (reads : ℕ) → CountsReads result reads reads }
{
    if let Some(image) = listed(alloc, file)? {
        let notes = Vec::new(alloc);
        return Ok(Standing { image, notes });
    }
    if is_nearly_decimals(alloc, file)? {
        let what = "does not have as many rows of decimals as its first number says";
        return Err(Trouble::Refused(about(alloc, name, what)?));
    }
    if is_profile(file) {
        return filter_of(alloc, manner, context, name, file);
    }
    if let Some(what) = kind_of(file) {
        return Err(Trouble::Refused(about(alloc, name, what)?));
    }
    if is_policy(file) {
        return policy_filter_of(alloc, name, file);
    }
    Ok(of_bytes(alloc, manner, name, file)?)
}

// What the policy in the file with this name stands for.
fn policy_filter_of(alloc: Global, name: &str, file: &[u8]) -> Result<Standing, Trouble>
    requires policy { is_policy file.now ≡ true }
    requires no_form { listing_of file.now ≡ None }
    requires no_kind { kind_of file.now ≡ None }
    ensures stands { IfOk result (λ it. StandsForPolicy file.now it.image.items it.notes.items) }
    ensures without { (manner : Manner) → (context : Context) → IfErr result (TextHasNoFilter manner context name.now file.now) }
    ensures unread { (reads : ℕ) → CountsReads result reads reads }
{
    match sk_policy_text::made(alloc, file) {
        Ok(image) => Ok(Standing {
            image,
            notes: Vec::new(alloc),
        }),
        Err(sk_policy_text::Refusal::Memory) => Err(Trouble::Memory),
        Err(refusal) => Err(Trouble::Refused(policy_line(alloc, name, file, refusal)?)),
    }
}

// What the bytes of the file with this name stand for.
fn of_bytes(alloc: Global, manner: Manner, name: &str, file: &[u8]) -> Result<Standing, AllocError>
    ensures stands { IfOk result (λ it. StandsAs name.now file.now (taken_turned manner.big_endian file.now) it.image.items it.notes.items) }
{
    match taken_turned(alloc, manner.big_endian, file)? {
        Some(image) => Ok(Standing {
            image,
            notes: about(alloc, name, "read with its highest byte first")?,
        }),
        None => Ok(Standing {
            image: file.to_vec(alloc)?,
            notes: Vec::new(alloc),
        }),
    }
}

// What the profile in the file with this name stands for.
fn filter_of(
    alloc: Global,
    manner: Manner,
    context: &Context<'_>,
    name: &str,
    file: &[u8],
) -> Result<Standing, Trouble>
    requires no_form { listing_of file.now ≡ None }
    requires profile { is_profile file.now ≡ true }
    ensures stands { IfOk result (λ it. StandsForFilter manner.strict context.now name.now file.now it.image.items it.notes.items) }
    ensures without { IfErr result (TextHasNoFilter manner context.now name.now file.now) }
    ensures unread { (reads : ℕ) → CountsReads result reads reads }
{
    match made(alloc, context, file)? {
        Ok(made) => {
            let notes = note_lines(alloc, name, &made.notes)?;
            if is_passed_over(manner.strict, &notes) {
                return Err(Trouble::Refused(notes));
            }
            let image = made.image;
            Ok(Standing { image, notes })
        }
        Err(refusal) => Err(Trouble::Refused(refusal_line(alloc, name, refusal)?)),
    }
}

// Whether something is told of a profile, and nothing may be passed over.
fn is_passed_over(strict: bool, lines: &[u8]) -> bool
    ensures passed { result ≡ is_passed_over strict lines.now }
{
    strict && !lines.is_empty()
}

/// The line that says why the policy in the file with this name is refused.
pub fn policy_line(
    alloc: Global,
    name: &str,
    file: &[u8],
    refusal: sk_policy_text::Refusal,
) -> Result<Vec<u8>, AllocError>
    ensures line { IfOk result (λ line. line.items ≡ about name.now (policy_refusal_text (words_of_text file.now) refusal)) }
{
    let what = sk_policy_text::refusal_text(alloc, file, refusal)?;
    about(alloc, name, &what)
}

fn note_lines(alloc: Global, name: &str, notes: &[String]) -> Result<Vec<u8>, AllocError>
    ensures lines { IfOk result (λ lines. lines.items ≡ note_lines name.now (map string_bytes notes.now)) }
{
    let mut lines = Vec::new(alloc);
    for note in notes {
        lines.extend_from_slice(&about(alloc, name, note)?)?;
    }
    Ok(lines)
}

fn refusal_line(alloc: Global, name: &str, refusal: Refusal) -> Result<Vec<u8>, AllocError>
    ensures line { IfOk result (λ line. line.items ≡ about name.now (refusal_text refusal)) }
{
    let what = refusal_text(alloc, refusal)?;
    about(alloc, name, &what)
}
