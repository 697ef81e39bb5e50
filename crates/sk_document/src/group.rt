//! By what filters do with its calls, a row of `ask when` is in one of three groups.
ghost use Rattle.std.specs.Prelude.{◌≡◌};
ghost use Rattle.std.specs.List.{list_any};
ghost use Rattle.sk_document.specs.Groups.{group_of, is_group, is_in, may_perform, performs_all, some_may_perform};

use sk_insn::Action;
use sk_terms::Line;
use sk_when::ConditionalRow;

/// What becomes of the calls of a row.
#[derive(Clone, Copy, Debug, PartialEq, Eq)]
pub enum Group {
    /// The filters let none of them through.
    Refused,
    /// It depends on their arguments which verdict they get, and some of them may be let through.
    Conditional,
    /// All are performed, by one verdict.
    Allowed,
}

/// Whether a row is in a group.
pub fn is_in(group: Group, told: &ConditionalRow) -> bool
    ensures is { result ≡ is_in group told.now }
{
    is_group(group_of(told), group)
}

fn group_of(told: &ConditionalRow) -> Group
    ensures group { result ≡ group_of told.now }
{
    if !some_may_perform(told) {
        Group::Refused
    } else if performs_all(&told.lines, told.otherwise) {
        Group::Allowed
    } else {
        Group::Conditional
    }
}

fn some_may_perform(told: &ConditionalRow) -> bool
    ensures some { result ≡ some_may_perform told.now }
{
    may_perform(told.otherwise) || any_may_perform(&told.lines)
}

fn any_may_perform(lines: &[Line]) -> bool
    ensures any { result ≡ list_any (λ line. may_perform line.value) lines.now }
{
    lines.iter().any(|line| may_perform(line.value))
}

fn may_perform(value: Option<u32>) -> bool
    ensures may { result ≡ may_perform value }
{
    match value {
        Some(value) => Action::of(value).performs(),
        None => true,
    }
}

fn performs_all(lines: &[Line], otherwise: Option<u32>) -> bool
    ensures all { result ≡ performs_all lines.now otherwise }
{
    match (lines, otherwise) {
        ([], Some(value)) => Action::of(value).performs(),
        _ => false,
    }
}

fn is_group(one: Group, other: Group) -> bool
    ensures same { result ≡ is_group one other }
{
    match one {
        Group::Refused => matches!(other, Group::Refused),
        Group::Conditional => matches!(other, Group::Conditional),
        Group::Allowed => matches!(other, Group::Allowed),
    }
}
