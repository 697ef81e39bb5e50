//! Whether a file is a profile.
ghost use Rattle.std.specs.Prelude.{◌≡◌, ◌<◌, IfSome, length, not, position};
ghost use Rattle.sk_profile_json.specs.Forms.{behind_first, begins_list, begins_object, begins_with_key, first_of, is_blank, is_byte, is_profile};

/// Whether a file is a profile: an object of JSON, or a list of such objects as docker prints it, by its first bytes that are no blanks. No text has a
/// NUL byte, and every filter in raw bytes has one.
pub fn is_profile(bytes: &[u8]) -> bool
    ensures exact { result ≡ is_profile bytes.now }
{
    !bytes.contains(&0) && (begins_object(bytes) || begins_list(bytes))
}

fn begins_object(bytes: &[u8]) -> bool
    ensures begins { result ≡ begins_object bytes.now }
{
    is_byte(b'{', first_of(bytes))
}

fn begins_list(bytes: &[u8]) -> bool
    ensures begins { result ≡ begins_list bytes.now }
{
    is_byte(b'[', first_of(bytes)) && begins_with_key(behind_first(bytes))
}

fn begins_with_key(bytes: &[u8]) -> bool
    ensures begins { result ≡ begins_with_key bytes.now }
{
    begins_object(bytes) && is_byte(b'"', first_of(behind_first(bytes)))
}

/// Whether this byte stands there.
pub(crate) fn is_byte(byte: u8, there: Option<u8>) -> bool
    ensures is { result ≡ is_byte byte there }
{
    match there {
        Some(other) => other == byte,
        None => false,
    }
}

fn behind_first(bytes: &[u8]) -> &[u8]
    ensures behind { result.now ≡ behind_first bytes.now }
{
    match place_of(bytes) {
        Some(place) => &bytes[place + 1..],
        None => &[],
    }
}

// Where the first byte stands that is no blank.
fn place_of(bytes: &[u8]) -> Option<usize>
    ensures place { result ≡ position (λ byte. not (is_blank byte)) bytes.now }
    ensures within { IfSome result (λ place. place < length bytes.now) }
{
    bytes.iter().position(|byte| !is_blank(*byte))
}

/// The first byte that is no blank of JSON.
pub(crate) fn first_of(bytes: &[u8]) -> Option<u8>
    ensures first { result ≡ first_of bytes.now }
{
    bytes.iter().copied().find(|byte| !is_blank(*byte))
}

fn is_blank(byte: u8) -> bool
    ensures blank { result ≡ is_blank byte }
{
    byte == b' ' || byte == b'\t' || byte == b'\n' || byte == b'\r'
}
