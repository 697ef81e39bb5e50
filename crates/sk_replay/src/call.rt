//! Calls as a log writes them.
ghost use Rattle.std.specs.Prelude.{◌≡◌, map, slice_index_or, take};
ghost use Rattle.sk_replay.specs.Calls.{call_begun, call_recorded, call_with, is_hidden, is_unknown, number_or_0, record_of, registers};

use crate::value::Value;
use sk_insn::Record;
use sk_names::Architecture;

/// A call as a log writes it: its number, how many arguments the log shows, and all six. Those behind what a whole call shows
/// are 0. A record of the kernel tells the action of a filter as well, without data.
#[derive(Clone, Copy, Debug, PartialEq, Eq, Hash)]
pub struct Call {
    pub nr: u32,
    pub shown: usize,
    pub args: [Value; 6],
    pub logged: Option<u32>,
}

impl Call {
    /// The call with these arguments.
    pub(crate) fn with(nr: u32, args: &[Value]) -> Call
        ensures call { result ≡ call_with nr args.now }
    {
        Call {
            nr,
            shown: args.len(),
            args: registers(args, Value::Told(0)),
            logged: None,
        }
    }

    /// The call that begins with these arguments.
    pub(crate) fn begun(nr: u32, args: &[Value]) -> Call
        ensures call { result ≡ call_begun nr args.now }
    {
        Call {
            nr,
            shown: 6,
            args: registers(args, Value::Unknown),
            logged: None,
        }
    }

    /// The call of a record that tells this action.
    pub(crate) fn recorded(nr: u32, action: Option<u32>) -> Call
        ensures call { result ≡ call_recorded nr action }
    {
        Call {
            nr,
            shown: 6,
            args: registers(&[], Value::Unknown),
            logged: action,
        }
    }

    /// The arguments that the log shows.
    pub fn shown_args(&self) -> &[Value]
        ensures shown { result.now ≡ take self.now.shown self.now.args }
    {
        if self.shown < self.args.len() {
            &self.args[..self.shown]
        } else {
            &self.args
        }
    }

    /// What a filter sees of it on an architecture, with 0 for what is not known. No log has the instruction pointer, which is
    /// 0 here.
    pub fn record(&self, architecture: Architecture) -> Record
        ensures record { result ≡ record_of architecture self.now }
    {
        Record {
            nr: self.nr,
            arch: architecture.audit(),
            ip: 0,
            args: self.numbers(),
        }
    }

    fn numbers(&self) -> [u64; 6]
        ensures numbers { result ≡ map number_or_0 self.now.args }
    {
        let [first, second, third, fourth, fifth, sixth] = self.args;
        [
            first.number_or_0(),
            second.number_or_0(),
            third.number_or_0(),
            fourth.number_or_0(),
            fifth.number_or_0(),
            sixth.number_or_0(),
        ]
    }

    /// Whether the log shows no number for this argument, from 0 on.
    pub(crate) fn is_hidden(&self, argument: usize) -> bool
        ensures hidden { result ≡ is_hidden self.now argument }
    {
        value_at(&self.args, argument, Value::Told(0)).is_unknown()
    }
}

// The six registers with these arguments, and this in those behind them.
fn registers(args: &[Value], other: Value) -> [Value; 6]
    ensures registers { result ≡ registers args.now other }
{
    [
        value_at(args, 0, other),
        value_at(args, 1, other),
        value_at(args, 2, other),
        value_at(args, 3, other),
        value_at(args, 4, other),
        value_at(args, 5, other),
    ]
}

/// The argument at a place, or this one where there is none.
pub(crate) fn value_at(args: &[Value], place: usize, other: Value) -> Value
    ensures value { result ≡ slice_index_or args.now place other }
{
    match args.get(place) {
        Some(value) => *value,
        None => other,
    }
}
