//! Where a profile stands in a document.
ghost use Rattle.std.specs.Prelude.{◌≡◌};
ghost use Rattle.std.specs.Option.{option_map};
ghost use Rattle.json.specs.Value.{value_view};
ghost use Rattle.sk_profile_json.specs.Wholes.{configured, inside, profile_of_document};

use crate::fault::Field;
use crate::fields::given;
use json::Value;

/// The profile that a document has in it, or the document where it has none.
pub(crate) fn profile_of_document<'v, 'a>(document: &'v Value<'a>) -> &'v Value<'a>
    ensures profile { value_view result.now ≡ profile_of_document (value_view document.now) }
{
    inside(document).unwrap_or(document)
}

fn inside<'v, 'a>(document: &'v Value<'a>) -> Option<&'v Value<'a>>
    ensures inside { option_map (λ v. value_view v.now) result ≡ inside (value_view document.now) }
{
    match configured(document) {
        Some(profile) => Some(profile),
        None => given(document, Field::Spec),
    }
}

// The profile in the configuration of a container.
fn configured<'v, 'a>(document: &'v Value<'a>) -> Option<&'v Value<'a>>
    ensures configured { option_map (λ v. value_view v.now) result ≡ configured (value_view document.now) }
{
    given(given(document, Field::Linux)?, Field::Seccomp)
}
