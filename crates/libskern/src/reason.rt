//! The numbers that are no fault of one filter, and the text of each number.
ghost use Rattle.std.specs.Prelude.{◌≡◌, map, slice_get};
ghost use Rattle.std.specs.Option.{option_map};
ghost use Rattle.libskern.specs.Texts.{text_of};

/// Nothing is wrong.
pub(crate) const FINE: u32 = 0;

/// A filter has more than 4096 instructions.
pub(crate) const TOO_LONG: u32 = 2;

/// The filters before it leave no room for this one.
pub(crate) const PATH_LIMIT: u32 = 12;

/// Memory was refused.
pub(crate) const NO_MEMORY: u32 = 13;

/// The new filters do not answer a call as they are to.
pub(crate) const DIFFER: u32 = 14;

/// A filter does what is not followed, and no call was found that tells the filters apart.
pub(crate) const UNFOLLOWED: u32 = 15;

/// The steps of a comparison were used up.
pub(crate) const SPENT: u32 = 16;

/// There is less room than what is to be written takes.
pub(crate) const NO_ROOM: u32 = 22;

/// A policy's text is wrong.
pub(crate) const POLICY: u32 = 23;

/// A call gets a less strict verdict than the call that Linux takes it for, or the sign of an int is asked for.
pub(crate) const WIDE: u32 = 24;

/// The text of each number, from 0 on.
pub const TEXTS: [&str; 25] = [
    "no fault",
    "no instruction",
    "more than 4096 instructions",
    "code not permitted",
    "no word of the call begins there",
    "division by 0",
    "shift by 32 or more",
    "no such scratch word",
    "jump out of the filter",
    "last instruction is no return",
    "scratch word loaded before it is stored",
    "last instruction is cut off",
    "no room beside the filters before it",
    "out of memory",
    "not so on the call that is shown",
    "a filter does what is not followed",
    "too many steps",
    "profile is no text in UTF-8",
    "profile is no JSON",
    "key comes twice in an object of the profile",
    "profile is wrong",
    "entries of the profile clash",
    "not enough room",
    "policy is wrong",
    "verdicts change by bits that Linux does not read",
];

/// The text of a number, or what is said of one that has none.
pub(crate) fn text_of(reason: u32) -> &'static str
    ensures text { result.now ≡ text_of reason }
{
    text_at(&TEXTS, reason as usize).unwrap_or("no such number")
}

fn text_at(texts: &[&'static str], place: usize) -> Option<&'static str>
    ensures text { option_map (λ text. text.now) result ≡ slice_get (map (λ text. text.now) texts.now) place }
{
    texts.get(place).copied()
}
