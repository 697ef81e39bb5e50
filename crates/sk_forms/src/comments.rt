//! The text of a program without its comments.
ghost use Rattle.std.specs.Prelude.{◌≡◌, IfOk};
ghost use Rattle.sk_forms.specs.Comments.{end_of, follows, kept, next_place, uncommented};

use std::alloc::{AllocError, Global};

/// Where a byte of a text in C stands.
#[derive(Clone, Copy, Debug, PartialEq, Eq)]
pub enum Place {
    /// In no comment.
    Code,
    /// Behind the `/` of a comment's beginning.
    Opening,
    /// In a comment that ends with its own sign.
    Block,
    /// Behind the `*` of a comment's end.
    Closing,
    /// In a comment that ends with its line.
    Line,
}

/// A text with a blank for each comment `/* .. */`, and without those behind `//`.
pub(crate) fn uncommented(alloc: Global, text: &[u8]) -> Result<Vec<u8>, AllocError>
    ensures exact { IfOk result (λ code. code.items ≡ uncommented text.now) }
{
    let mut code = Vec::new(alloc);
    let mut place = Place::Code;
    let mut rest = text;
    while let Some((byte, behind)) = rest.split_first() {
        if let Some(byte) = kept(place, *byte, behind) {
            code.push(byte)?;
        }
        place = next_place(place, *byte, behind);
        rest = behind;
    }
    if let Some(byte) = end_of(place) {
        code.push(byte)?;
    }
    Ok(code)
}

fn follows(byte: u8, rest: &[u8]) -> bool
    ensures first { result ≡ follows byte rest.now }
{
    match rest.split_first() {
        Some((first, _)) => *first == byte,
        None => false,
    }
}

#[tactic(auto, unfolding(crate::specs::Comments::next_place))]
fn next_place(place: Place, byte: u8, rest: &[u8]) -> Place
    ensures next { result ≡ next_place place byte rest.now }
{
    match place {
        Place::Code if byte == b'/' && follows(b'*', rest) => Place::Opening,
        Place::Code if byte == b'/' && follows(b'/', rest) => Place::Line,
        Place::Code => Place::Code,
        Place::Opening => Place::Block,
        Place::Block if byte == b'*' && follows(b'/', rest) => Place::Closing,
        Place::Block => Place::Block,
        Place::Closing => Place::Code,
        Place::Line if byte == b'\n' => Place::Code,
        Place::Line => Place::Line,
    }
}

#[tactic(auto, unfolding(crate::specs::Comments::kept))]
fn kept(place: Place, byte: u8, rest: &[u8]) -> Option<u8>
    ensures kept { result ≡ kept place byte rest.now }
{
    match place {
        Place::Code if byte == b'/' && (follows(b'*', rest) || follows(b'/', rest)) => None,
        Place::Code => Some(byte),
        Place::Closing => Some(b' '),
        Place::Line if byte == b'\n' => Some(byte),
        Place::Opening | Place::Block | Place::Line => None,
    }
}

#[tactic(auto, unfolding(crate::specs::Comments::end_of))]
fn end_of(place: Place) -> Option<u8>
    ensures end { result ≡ end_of place }
{
    match place {
        Place::Code | Place::Line => None,
        Place::Opening | Place::Block | Place::Closing => Some(0),
    }
}
