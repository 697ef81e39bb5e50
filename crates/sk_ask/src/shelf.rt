//! Files by their names, and their bytes.
ghost use Rattle.std.specs.Prelude.{◌≡◌, ◌≤◌, ◌<◌, ◌^◌, ◌-◌, ℕ, List, IfOk, IfErr, OnOk, ◌++◌, [], ◌∷◌, codes, length, map, string_bytes, vec_len};
ghost use Rattle.sk_ask.specs.Counts.{CountsReads, CountsTrouble};
ghost use Rattle.sk_ask.specs.Complaints.{about};
ghost use Rattle.sk_ask.specs.Shelves.{Held, AreContents, IsContent, IsUnread, IsUnreadOf, too_long_text, unopened_text};
ghost use Rattle.sk_ask.specs.Taking.{CountsUnread, CountsWhy, IsTaken, IsUntaken};

use crate::complaint::about;
use crate::trouble::Trouble;
use sk_text::ReadFault;
use std::alloc::{AllocError, Global};

/// Where files are read, each once, by their names.
pub trait Shelf {
    // What is known of the file with this name.
    ghost held: { Self → List ℕ → Held };

    /// The first `most` bytes of the file with this name, or all where it has fewer. It is opened once, and a read that fails
    /// is counted.
    fn take(
        &self,
        alloc: Global,
        reads: &mut u64,
        name: &str,
        most: usize,
    ) -> Result<Vec<u8>, Unread>
        ensures taken { IfOk result (λ bytes. IsTaken most (held self.now name.now) bytes.items) }
        ensures untaken { IfErr result (IsUntaken (held self.now name.now)) }
        ensures counted { CountsUnread result reads.old reads.new };
}

/// Why a file can't be opened.
#[derive(Clone, Copy, Debug, PartialEq, Eq)]
pub enum Unopened {
    /// No file has the name.
    Missing,
    /// It may not be read.
    Forbidden,
    /// It is a folder.
    Folder,
    /// There is another reason.
    Other,
}

/// Why the bytes of a file are not there.
#[derive(Clone, Copy, Debug, PartialEq, Eq)]
pub enum Unread {
    /// It can't be opened.
    Unopened(Unopened),
    /// A read failed.
    Reading,
    /// Memory was refused.
    Memory,
}

impl From<ReadFault> for Unread {
    ghost use Rattle.std.specs.Prelude.{◌≡◌, ◌⊎◌};
    ghost use Rattle.sk_text.specs.declared.source.ReadFault.TheVariants as fault;
    ghost use Rattle.sk_ask.specs.declared.shelf.Unread.TheVariants as unread;

    ghost from_gives = { λ of why. ((of ≡ fault.Read) × (why ≡ unread.Reading)) ⊎ ((of ≡ fault.Memory) × (why ≡ unread.Memory)) };

    fn from(fault: ReadFault) -> Unread {
        match fault {
            ReadFault::Read => Unread::Reading,
            ReadFault::Memory => Unread::Memory,
        }
    }
}

/// The most bytes of a log.
pub const MOST_LOG_BYTES: usize = 268_435_456;

/// What the file with this name holds, which may have so many bytes.
#[tactic(auto, using(crate::proofs::Wholes::is_content))]
pub fn content<S: Shelf>(
    alloc: Global,
    shelf: &S,
    reads: &mut u64,
    name: &str,
    most: usize,
) -> Result<Vec<u8>, Trouble>
    requires limit { most < 2 ^ 64 - 1 }
    ensures content { IfOk result (λ bytes. IsContent most (S.held shelf.now name.now) bytes.items) }
    ensures unread { IfErr result (IsUnread most (S.held shelf.now name.now) name.now) }
    ensures counted { CountsReads result reads.old reads.new }
{
    // It is made before the read: where one has failed no memory may be asked for.
    let failed = about(alloc, name, "reading failed")?;
    match shelf.take(alloc, reads, name, most + 1) {
        Ok(bytes) if bytes.len() > most => Err(Trouble::Refused(too_long(alloc, name, most)?)),
        Ok(bytes) => Ok(bytes),
        Err(unread) => Err(untaken(alloc, name, unread, failed)),
    }
}

fn too_long(alloc: Global, name: &str, most: usize) -> Result<Vec<u8>, AllocError>
    ensures line { IfOk result (λ line. line.items ≡ about name.now (too_long_text most)) }
{
    let what = format!(in alloc; "has more than {most} bytes")?;
    about(alloc, name, &what)
}

// Why there is no content, where a line is made for a read that failed.
fn untaken(alloc: Global, name: &str, unread: Unread, failed: Vec<u8>) -> Trouble
    requires { failed.items ≡ about name.now (codes "reading failed") }
    ensures unread { (most : ℕ) → (held : Held) → IsUntaken held unread → IsUnread most held name.now result }
    ensures counted { (old : ℕ) → (new : ℕ) → CountsWhy unread old new → CountsTrouble result old new }
{
    match unread {
        Unread::Reading => Trouble::Reading(failed),
        Unread::Memory => Trouble::Memory,
        Unread::Unopened(why) => match about(alloc, name, unopened_text(why)) {
            Ok(line) => Trouble::Refused(line),
            Err(AllocError) => Trouble::Memory,
        },
    }
}

fn unopened_text(why: Unopened) -> &'static str
    ensures text { result.now ≡ unopened_text why }
{
    match why {
        Unopened::Missing => "no such file",
        Unopened::Forbidden => "may not be read",
        Unopened::Folder => "is a folder",
        Unopened::Other => "can't be opened",
    }
}

/// What the files with these names hold, each of which may have so many bytes, or why the first that can't be read is not read.
pub fn contents<S: Shelf>(
    alloc: Global,
    shelf: &S,
    reads: &mut u64,
    names: &[String],
    most: usize,
) -> Result<Vec<Vec<u8>>, Trouble>
    requires limit { most < 2 ^ 64 - 1 }
    ensures contents { IfOk result (λ files. AreContents most (S.held shelf.now) (map string_bytes names.now) (map (λ file. file.items) files.items)) }
    ensures each { IfOk result (λ files. vec_len files ≡ length names.now) }
    ensures unread { IfErr result (IsUnreadOf most (S.held shelf.now) (map string_bytes names.now)) }
    ensures counted { CountsReads result reads.old reads.new }
{
    let mut files = Vec::new(alloc);
    let mut rest = names;
    while let Some((name, left)) = rest.split_first() {
        let bytes = content(alloc, shelf, reads, name.as_str(), most)?;
        files.push(bytes)?;
        rest = left;
    }
    Ok(files)
}
