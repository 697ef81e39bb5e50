//! What a command replies. A line that refuses an input is made in place, so that no judgement takes memory.
ghost use Rattle.std.specs.Prelude.{◌≡◌, ◌≤◌, ◌+◌, ◌++◌, codes, length, string_bytes};
ghost use Rattle.std.specs.Fmt.{decimal};
ghost use Rattle.arrayvec.specs.ArrayString.{array_string_len};
ghost use Rattle.sk_engines.specs.Output.{done, refused, line, at_line};
ghost use Rattle.sk_engines.specs.Reply.{output_of};

use sk_text::{Line, push_long};

/// What a command replies: a text, and by it an exit status.
#[derive(Drop)]
pub enum Reply {
    /// The command did its work, and this is its text.
    Done(String),
    /// The command did its work, and a line says so.
    Accepted(Line),
    /// The input is refused, with this line.
    Refused(Line),
}

impl Reply {
    /// The text that is sent.
    pub fn text(&self) -> &str
        ensures text { result.now ≡ (output_of self.now).text }
    {
        match self {
            Reply::Done(text) => text.as_str(),
            Reply::Accepted(line) | Reply::Refused(line) => line.as_str(),
        }
    }

    /// The exit status.
    pub fn status(&self) -> u8
        ensures status { result ≡ (output_of self.now).status }
        ensures known { result ≤ 1 }
    {
        match self {
            Reply::Done(_) | Reply::Accepted(_) => 0,
            Reply::Refused(_) => 1,
        }
    }

    /// The input is refused with these words.
    pub fn refused(why: &str) -> Reply
        requires short { length why.now ≤ 64 }
        ensures answer { output_of result ≡ refused (line why.now) }
    {
        let mut text = Line::new();
        text.push_str(why);
        text.push_str("\n");
        Reply::Refused(text)
    }

    /// What is wrong with a line.
    pub fn at_line(number: usize, what: &str) -> Reply
        requires short { length what.now ≤ 64 }
        ensures answer { output_of result ≡ at_line number what.now }
    {
        let mut text = Line::new();
        text.push_str("skern: line ");
        push_long(&mut text, number as u64);
        text.push_str(": ");
        text.push_str(what);
        text.push_str("\n");
        Reply::Refused(text)
    }
}

/// Appends words and a place behind them.
pub fn push_place(text: &mut Line, words: &str, at: usize)
    requires room { array_string_len text.old + length words.now + 20 ≤ 128 }
    ensures bytes { text.new.bytes ≡ text.old.bytes ++ (words.now ++ decimal at) }
    ensures growth { array_string_len text.new ≤ array_string_len text.old + length words.now + 20 }
{
    text.push_str(words);
    push_long(text, at as u64);
}
