//! The arguments of a call that a line shows.
ghost use Rattle.std.specs.Prelude.{◌≡◌, ◌<◌, ◌++◌};
ghost use Rattle.std.specs.Option.{option_map};
ghost use Rattle.arrayvec.specs.ArrayVec.{array_vec_len};
ghost use Rattle.sk_text.specs.Lines.{words_of};
ghost use Rattle.sk_replay.specs.Lines.{behind_argument, first_argument, last_value, values_in};

use crate::nest::argument_end;
use crate::value::Value;
use crate::written::Written;
use arrayvec::ArrayVec;
use sk_text::Words;

/// At most six arguments.
pub(crate) type Arguments = ArrayVec<Value, 6>;

/// The arguments at the beginning of a text, and what stands behind them.
#[derive(Drop)]
pub(crate) struct Shown<'a> {
    pub(crate) args: Arguments,
    pub(crate) behind: &'a [u8],
}

impl<'a> Shown<'a> {
    /// The arguments at the beginning of a text, of which there are at most six.
    pub(crate) fn of(written: Written, text: &'a [u8]) -> Option<Shown<'a>>
        ensures shown { option_map (λ it. (it.args.items, it.behind.now)) result ≡ values_in written 6 text.now }
    {
        let mut args = ArrayVec::new();
        let mut rest = text;
        while !args.is_full() {
            let (argument, behind) = first_argument(rest);
            if !behind.starts_with(b",") {
                push_last(&mut args, written, argument);
                return Some(Shown { args, behind });
            }
            args.push(written.value(argument));
            rest = &behind[1..];
        }
        None
    }
}

// The text of the first argument, and what stands behind it.
fn first_argument(text: &[u8]) -> (&[u8], &[u8])
    ensures first { result.0.now ≡ first_argument text.now }
    ensures behind { result.1.now ≡ behind_argument text.now }
{
    text.split_at(argument_end(text))
}

// Puts the last argument behind the others, where it has a word.
fn push_last(args: &mut Arguments, written: Written, argument: &[u8])
    requires room { array_vec_len args.old < 6 }
    ensures pushed { args.new.items ≡ args.old.items ++ last_value written argument.now (words_of argument.now) }
{
    if Words(argument).next().is_some() {
        args.push(written.value(argument));
    }
}
