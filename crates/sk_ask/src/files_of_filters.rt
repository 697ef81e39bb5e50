//! The filters of files that are known by their names, and the answer of a word to them.
ghost use Rattle.std.specs.Prelude.{◌≡◌, ◌<◌, ℕ, IfOk, IfErr, length, map, string_bytes};
ghost use Rattle.sk_ask.specs.Filters.{chain_of};
ghost use Rattle.sk_ask.specs.Finding.{filters_of};
ghost use Rattle.sk_ask.specs.Given.{ArePlaced};
ghost use Rattle.sk_ask.specs.Counts.{CountsReads};
ghost use Rattle.sk_ask.specs.Endings.{ending_of};
ghost use Rattle.sk_ask.specs.Reading.{ReadsFilters, IsRefusal, IsRefusedOf, IsReadAs, judged, read_of, with_chain};
ghost use Rattle.sk_ask.specs.Answers.{Judges};
ghost use Rattle.sk_ask.specs.Troubles.{OfFiles};

use crate::answer::{Answer, Tells};
use crate::attaching::attach;
use crate::complaint::about;
use crate::expansion::{Expansion, expanded};
use crate::fault::Refused;
use crate::files::find;
use crate::found::Found;
use crate::manner::Manner;
use crate::shelf::{Shelf, contents};
use crate::text::fault_text;
use crate::trouble::Trouble;
use sk_filter::Chain;
use sk_profile_json::Context;
use sk_text::MOST_BYTES;
use std::alloc::{AllocError, Global};

/// The bytes of files, the filters that were found in them, the oldest first, their chain, and the lines of what is told of them.
#[derive(Drop)]
pub struct Filters {
    pub files: Vec<Vec<u8>>,
    pub found: Found,
    pub chain: Chain,
    pub notes: Vec<u8>,
}

/// How files are read: from where, where the profiles among them are to hold, and how they are taken for filters.
#[derive(Drop)]
pub struct Reader<'a, S> {
    pub shelf: &'a S,
    pub context: &'a Context<'a>,
    pub manner: Manner,
}

impl<S: Shelf> Reader<'_, S> {
    /// The filters in the files with these names, the oldest first. A profile stands there for its filter, as it is to hold,
    /// and bytes that are a valid filter with the highest byte first, for that one, where that order is asked for.
    pub fn filters(
        &self,
        alloc: Global,
        reads: &mut u64,
        names: &[String],
    ) -> Result<Filters, Trouble>
        ensures read { IfOk result (λ filters. ReadsFilters self.now.manner (S.held self.now.shelf.now) self.now.context.now
            (map string_bytes names.now) (read_of filters)) }
        ensures refused { IfErr result (IsRefusedOf self.now.manner (S.held self.now.shelf.now) self.now.context.now (map string_bytes names.now)) }
        ensures counted { CountsReads result reads.old reads.new }
    {
        let files = contents(alloc, self.shelf, reads, names, MOST_BYTES)?;
        let expansion = expanded(alloc, self.manner, self.context, names, &files)?;
        read(alloc, names, files, expansion)
    }

    /// The answer of a word to the files with these names.
    pub fn answer<T: Tells>(
        &self,
        alloc: Global,
        reads: &mut u64,
        names: &[String],
        word: T,
    ) -> Result<Answer, Trouble>
        ensures told { OfFiles self.now.manner (S.held self.now.shelf.now) self.now.context.now (map string_bytes names.now) (ending_of result)
            (λ read. T.tells word read (ending_of result)) }
        ensures counted { CountsReads result reads.old reads.new }
    {
        let filters = self.filters(alloc, reads, names)?;
        word.told(alloc, filters)
    }
}

fn read(
    alloc: Global,
    names: &[String],
    files: Vec<Vec<u8>>,
    expansion: Expansion,
) -> Result<Filters, Trouble>
    requires each { length expansion.images.items ≡ length names.now }
    ensures exact { IsReadAs (map string_bytes names.now) result (judged (map (λ image. image.items) expansion.images.items)) }
    ensures noted { IfOk result (λ filters. filters.notes.items ≡ expansion.notes.items) }
    ensures kept { IfOk result (λ filters. filters.files.items ≡ files.items) }
{
    match judged(alloc, &expansion.images)? {
        Ok(filters) => Ok(Filters {
            files,
            notes: expansion.notes,
            ..filters
        }),
        Err(refused) => Err(Trouble::Refused(refusal_line(alloc, names, refused)?)),
    }
}

/// The filters that the images are, of which nothing is told yet.
pub(crate) fn judged(
    alloc: Global,
    images: &[Vec<u8>],
) -> Result<Result<Filters, Refused>, AllocError>
    ensures exact { IfOk result (λ said. Judges said (judged (map (λ image. image.items) images.now))) }
    ensures given { IfOk result (λ said. IfErr said (λ refused. refused.file < length images.now)) }
{
    match find(alloc, images)? {
        Ok(found) => attached(alloc, found),
        Err(refused) => Ok(Err(refused)),
    }
}

// The filters that were found, with their chain.
fn attached(alloc: Global, found: Found) -> Result<Result<Filters, Refused>, AllocError>
    requires paired { length (filters_of found).places ≡ length (filters_of found).images }
    ensures exact { IfOk result (λ said. Judges said (with_chain (filters_of found) (chain_of (filters_of found)))) }
    ensures given { (count : ℕ) → ArePlaced count (filters_of found) → IfOk result (λ said. IfErr said (λ refused. refused.file < count)) }
{
    match attach(alloc, &found)? {
        Ok(chain) => Ok(Ok(Filters {
            files: Vec::new(alloc),
            found,
            chain,
            notes: Vec::new(alloc),
        })),
        Err(refused) => Ok(Err(refused)),
    }
}

fn refusal_line(alloc: Global, names: &[String], refused: Refused) -> Result<Vec<u8>, AllocError>
    requires given { refused.file < length names.now }
    ensures line { IfOk result (λ line. IsRefusal (map string_bytes names.now) refused line.items) }
{
    let what = fault_text(alloc, refused.why)?;
    about(alloc, &names[refused.file], &what)
}
