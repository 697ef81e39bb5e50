//! What is told of the filters of a caller: that nothing is wrong with them, or the first fault.
ghost use Rattle.std.specs.Prelude.{◌≡◌};
ghost use Rattle.libskern.specs.Faults.{no_image_number, number_of, plain, refusal_at};
ghost use Rattle.sk_filter.specs.Valid.{fault_place};

use crate::reason;
use sk_engines::Refusal;
use sk_filter::CheckFault;
use sk_insn::NoImage;

/// What is wrong, by a number of `enum skern_reason`, and where: the chain, 0 for the old or only one and 1 for the new
/// one, the filter among its filters, and the instruction. All count from 0, and are 0 where they say nothing.
#[repr(C)]
#[derive(Clone, Copy, Debug, PartialEq, Eq)]
pub struct Fault {
    pub reason: u32,
    pub chain: u32,
    pub filter: usize,
    pub place: usize,
}

impl Fault {
    /// A number that is said of all filters together.
    pub(crate) fn plain(reason: u32) -> Fault
        ensures plain { result ≡ plain reason }
    {
        Fault {
            reason,
            chain: 0,
            filter: 0,
            place: 0,
        }
    }

    /// This filter of a chain is refused.
    pub(crate) fn refused(chain: u32, filter: usize, refusal: Refusal) -> Fault
        ensures refused { result ≡ refusal_at chain filter refusal }
    {
        let (reason, place) = match refusal {
            Refusal::Image(why) => (no_image_number(why), 0),
            Refusal::Program(fault) => (number_of(fault), place_of(fault)),
            Refusal::PathLimit => (reason::PATH_LIMIT, 0),
        };
        Fault {
            reason,
            chain,
            filter,
            place,
        }
    }
}

fn no_image_number(why: NoImage) -> u32
    ensures number { result ≡ no_image_number why }
{
    match why {
        NoImage::Ragged => 11,
        NoImage::Empty => 1,
        NoImage::TooLong => 2,
    }
}

fn number_of(fault: CheckFault) -> u32
    ensures number { result ≡ number_of fault }
{
    match fault {
        CheckFault::Empty => 1,
        CheckFault::TooLong => 2,
        CheckFault::Code { .. } => 3,
        CheckFault::Load { .. } => 4,
        CheckFault::DivZero { .. } => 5,
        CheckFault::Shift { .. } => 6,
        CheckFault::Word { .. } => 7,
        CheckFault::Jump { .. } => 8,
        CheckFault::NoReturn => 9,
        CheckFault::Unstored { .. } => 10,
    }
}

fn place_of(fault: CheckFault) -> usize
    ensures place { result ≡ fault_place fault }
{
    match fault {
        CheckFault::Code { at }
        | CheckFault::Load { at }
        | CheckFault::DivZero { at }
        | CheckFault::Shift { at }
        | CheckFault::Word { at }
        | CheckFault::Jump { at }
        | CheckFault::Unstored { at, .. } => at,
        CheckFault::Empty | CheckFault::TooLong | CheckFault::NoReturn => 0,
    }
}
