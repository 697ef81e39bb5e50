//! Lists of names.
ghost use Rattle.std.specs.Prelude.{◌≡◌, ◌<◌, length, map, position, slice_get, IfSome};
ghost use Rattle.std.specs.Option.{option_map};
ghost use Rattle.std.specs.Str.{bytes_eq};

/// The name at a place.
pub fn nth(names: &[&'static str], place: usize) -> Option<&'static str>
    ensures name { option_map (λ name. name.now) result ≡ slice_get (map (λ name. name.now) names.now) place }
{
    names.get(place).copied()
}

/// The first place of a name.
pub fn place_of(names: &[&'static str], wanted: &[u8]) -> Option<usize>
    ensures first { result ≡ position (λ name. bytes_eq name wanted.now) (map (λ name. name.now) names.now) }
    ensures within { IfSome result (λ place. place < length names.now) }
{
    place_in(names, wanted)
}

fn place_in(names: &[&'static str], wanted: &[u8]) -> Option<usize>
    ensures first { result ≡ position (λ name. bytes_eq name.now wanted.now) names.now }
    ensures within { IfSome result (λ place. place < length names.now) }
{
    names.iter().position(|name| name.as_bytes() == wanted)
}
