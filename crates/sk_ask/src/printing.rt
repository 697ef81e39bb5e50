//! How what is told is printed.
ghost use Rattle.std.specs.Prelude.{◌≡◌};
ghost use Rattle.sk_ask.specs.Asking.{printing_asked};

/// The two printers of what is told.
#[derive(Clone, Copy, Debug, PartialEq, Eq)]
pub enum Printing {
    /// A text for people.
    Text,
    /// One JSON document.
    Document,
}

/// The one that is asked for.
pub fn printing_asked(json: bool) -> Printing
    ensures printing { result ≡ printing_asked json }
{
    if json {
        Printing::Document
    } else {
        Printing::Text
    }
}
