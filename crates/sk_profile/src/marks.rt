//! The numbers at which something else may be said than before.
ghost use Rattle.std.specs.Prelude.{◌≡◌, ◌+◌, map, flat_map, None};
ghost use Rattle.sk_profile.specs.Rows.{marks_of_rule, nearer, next_mark, next_of};
ghost use Rattle.sk_profile.specs.Views.{rule_of, part_of};

use crate::profile::{Part, Rule};

/// Where bit 30, by which runc tells numbers of x32, begins and ends, begins again, and x32 ends.
const OF_X32: [u64; 4] = [0x4000_0000, 0x8000_0000, 0xc000_0000, 0xffff_ffff];

/// The nearest number above one at which something else may be said.
pub(crate) fn next_mark(part: &Part, from: u32) -> Option<u32>
    ensures mark { result ≡ next_mark (part_of part.now) from }
{
    let of_rules = next_of_rules(&part.rules, from);
    let of_tops = nearest(from, of_rules, &[behind(part.top), behind(part.x32_top)]);
    nearest(from, of_tops, &OF_X32)
}

// The number behind one.
fn behind(number: u32) -> u64
    ensures behind { result ≡ number + 1 }
{
    u64::from(number) + 1
}

fn next_of_rules(rules: &[Rule], from: u32) -> Option<u32>
    ensures mark { result ≡ next_of from None (flat_map marks_of_rule (map rule_of rules.now)) }
{
    let mut best = None;
    let mut left = rules;
    while let Some((rule, rest)) = left.split_first() {
        best = nearest(from, best, &[u64::from(rule.number), behind(rule.number)]);
        left = rest;
    }
    best
}

// The nearest of a number that was found and of these.
fn nearest(from: u32, best: Option<u32>, marks: &[u64]) -> Option<u32>
    ensures nearest { result ≡ next_of from best marks.now }
{
    let mut best = best;
    for mark in marks {
        best = nearer(from, best, *mark);
    }
    best
}

fn nearer(from: u32, best: Option<u32>, mark: u64) -> Option<u32>
    ensures nearer { result ≡ nearer from best mark }
{
    let Ok(mark) = u32::try_from(mark) else {
        return best;
    };
    match best {
        None => if from < mark { Some(mark) } else { None },
        Some(found) => if from < mark && mark < found {
            Some(mark)
        } else {
            Some(found)
        },
    }
}
