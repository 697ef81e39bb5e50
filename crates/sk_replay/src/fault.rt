//! Why a word stands for no call.
ghost use Rattle.std.specs.Prelude.{◌≡◌, Some};
ghost use Rattle.sk_replay.specs.Faults.{fault_of, fault_text, shown_behind};

use std::fmt;

/// Why a word stands for no call.
#[derive(Clone, Copy, Debug, PartialEq, Eq)]
pub enum CallFault<'a> {
    /// What stands before the parentheses is neither a name nor a number of a call.
    NoCall,
    /// No `)` stands at the end, or something stands behind it.
    Unclosed,
    /// A text has no double quote at its end.
    Unquoted,
    /// The argument with this number, from 1 on, has this part, which is no number of 64 bits and no constant.
    Argument(usize, &'a [u8]),
    /// There is a seventh argument.
    TooMany,
}

impl<'a> CallFault<'a> {
    /// What is shown behind the text of the fault.
    pub fn shown_behind(&self) -> &'a [u8]
        ensures shown { result.now ≡ shown_behind (fault_of self.now) }
    {
        match self {
            CallFault::Argument(_, part) => part,
            _ => &[],
        }
    }
}

impl fmt::Display for CallFault<'_> {
    ghost output = { λ fault. Some (fault_text (fault_of fault)) };

    fn fmt<W: fmt::Write>(&self, f: &mut fmt::Formatter<W>) -> fmt::Result {
        match self {
            CallFault::NoCall => f.write_str("no call has this name or number"),
            CallFault::Unclosed => f.write_str("CALL(ARG, ..) does not end with its parenthesis"),
            CallFault::Unquoted => {
                f.write_str("CALL(ARG, ..) has a text that does not end with its double quote")
            }
            CallFault::Argument(number, _) => {
                write!(
                    f,
                    "argument {number} of CALL(ARG, ..) is no number of 64 bits and no constant: "
                )
            }
            CallFault::TooMany => f.write_str("CALL(ARG, ..) has more than six arguments"),
        }
    }
}
