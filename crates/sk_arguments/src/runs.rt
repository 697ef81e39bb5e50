//! Names in runs, of which a look-up reads only those that begin as the name does.
ghost use Rattle.std.specs.Prelude.{◌≡◌, IsTrue, position};
ghost use Rattle.std.specs.List.{list_all};
ghost use Rattle.std.specs.Str.{bytes_eq};
ghost use Rattle.sk_arguments.specs.Reading.{names_in};
ghost use Rattle.sk_arguments.specs.Runs.{begins_alike, follow, names_of_all};

/// Names that begin with the same two letters: the place of the first of them among all names, and from which byte of the text to
/// which they stand.
pub type Run = (usize, usize, usize);

/// The first place of a name among those of all runs.
pub fn place_in(text: &[u8], runs: &[Run], wanted: &[u8]) -> Option<usize>
    requires follow { IsTrue (follow text.now 0 runs.now) }
    ensures first { result ≡ position (λ name. bytes_eq name wanted.now) (names_of_all text.now runs.now) }
{
    let mut rest = runs;
    while let Some((run, later)) = rest.split_first() {
        let (first, start, end) = *run;
        if let Some(place) = place_in_run(&text[start..end], wanted) {
            return Some(first + place);
        }
        rest = later;
    }
    None
}

// The first place of a name among those that begin as their text does.
fn place_in_run(names: &[u8], wanted: &[u8]) -> Option<usize>
    requires alike { IsTrue (list_all (begins_alike names.now) (names_in names.now)) }
    ensures first { result ≡ position (λ name. bytes_eq name wanted.now) (names_in names.now) }
{
    if begins_alike(names, wanted) {
        place_of(names, wanted)
    } else {
        None
    }
}

// Whether two names begin with the same two letters.
fn begins_alike(name: &[u8], other: &[u8]) -> bool
    ensures alike { result ≡ begins_alike name.now other.now }
{
    name.len() > 1 && other.len() > 1 && name[0] == other[0] && name[1] == other[1]
}

// The first place of a name in a text.
fn place_of(names: &[u8], wanted: &[u8]) -> Option<usize>
    ensures first { result ≡ position (λ name. bytes_eq name wanted.now) (names_in names.now) }
{
    names
        .split(|byte| *byte == b' ')
        .position(|name| name == wanted)
}
