//! Where a byte of a call stands that strace(1) writes.
ghost use Rattle.std.specs.Prelude.{◌≡◌, ◌<◌, ◌≤◌, ◌+◌, ◌-◌, ◌^◌, length};
ghost use Rattle.sk_replay.specs.Nests.{angles_behind, angles_opened, behind, brackets_behind, closes, end_from, ends_argument, in_angles, in_brackets, is_outside, opens, outside, plainly_behind};

/// What is open at a place.
#[derive(Clone, Copy, Debug)]
pub struct Nest {
    /// A text in double quotes.
    pub is_quoted: bool,
    /// The byte before is a backslash, which takes the meaning of the next.
    pub is_escaped: bool,
    /// The byte before.
    pub before: u8,
    /// So many angle brackets.
    pub angles: usize,
    /// So many other brackets.
    pub brackets: usize,
}

impl Nest {
    // Nothing is open.
    fn outside() -> Nest
        ensures outside { result ≡ outside }
    {
        Nest {
            is_quoted: false,
            is_escaped: false,
            before: 0,
            angles: 0,
            brackets: 0,
        }
    }

    fn is_outside(self) -> bool
        ensures outside { result ≡ is_outside self }
    {
        !self.is_quoted && self.angles == 0 && self.brackets == 0
    }

    #[tactic(auto, unfolding(crate::specs::Nests::ends_argument))]
    fn ends_argument(self, byte: u8) -> bool
        ensures ends { result ≡ ends_argument self byte }
    {
        self.is_outside() && (byte == b',' || byte == b')')
    }

    #[tactic(auto, unfolding(crate::specs::Nests::behind))]
    fn behind(self, byte: u8) -> Nest
        requires angles { self.angles < 2 ^ 64 - 1 }
        requires brackets { self.brackets < 2 ^ 64 - 1 }
        ensures behind { result ≡ behind self byte }
        ensures most_angles { result.angles ≤ self.angles + 1 }
        ensures most_brackets { result.brackets ≤ self.brackets + 1 }
    {
        if self.is_escaped {
            Nest {
                is_escaped: false,
                before: byte,
                ..self
            }
        } else if byte == b'\\' {
            Nest {
                is_escaped: true,
                before: byte,
                ..self
            }
        } else {
            self.plainly_behind(byte)
        }
    }

    fn plainly_behind(self, byte: u8) -> Nest
        requires angles { self.angles < 2 ^ 64 - 1 }
        requires brackets { self.brackets < 2 ^ 64 - 1 }
        ensures behind { result ≡ plainly_behind self byte }
        ensures most_angles { result.angles ≤ self.angles + 1 }
        ensures most_brackets { result.brackets ≤ self.brackets + 1 }
    {
        if self.is_quoted {
            Nest {
                is_quoted: byte != b'"',
                before: byte,
                ..self
            }
        } else if self.angles > 0 {
            Nest {
                angles: self.angles_behind(byte),
                before: byte,
                ..self
            }
        } else {
            Nest {
                is_quoted: byte == b'"',
                before: byte,
                angles: if byte == b'<' { 1 } else { 0 },
                brackets: brackets_behind(self.brackets, byte),
                ..self
            }
        }
    }

    fn angles_behind(self, byte: u8) -> usize
        requires room { self.angles < 2 ^ 64 - 1 }
        ensures angles { result ≡ angles_behind self byte }
        ensures most { result ≤ self.angles + 1 }
    {
        if byte == b'<' {
            self.angles_opened()
        } else if byte == b'>' && self.before != b'-' {
            self.angles.saturating_sub(1)
        } else {
            self.angles
        }
    }

    // How many are open behind one more `<`.
    fn angles_opened(self) -> usize
        requires room { self.angles < 2 ^ 64 - 1 }
        ensures angles { result ≡ angles_opened self }
        ensures most { result ≤ self.angles + 1 }
    {
        if self.angles == 1 && self.before == b'<' {
            0
        } else {
            self.angles + 1
        }
    }
}

fn brackets_behind(count: usize, byte: u8) -> usize
    requires room { count < 2 ^ 64 - 1 }
    ensures brackets { result ≡ brackets_behind count byte }
    ensures most { result ≤ count + 1 }
{
    match byte {
        b'(' | b'[' | b'{' => count + 1,
        b')' | b']' | b'}' => count.saturating_sub(1),
        _ => count,
    }
}

/// How many bytes stand before the end of the first argument.
pub(crate) fn argument_end(text: &[u8]) -> usize
    ensures end { result ≡ end_from outside text.now }
    ensures inside { result ≤ length text.now }
{
    let mut nest = Nest::outside();
    for (at, byte) in text.iter().enumerate() {
        if nest.ends_argument(*byte) {
            return at;
        }
        nest = nest.behind(*byte);
    }
    text.len()
}
