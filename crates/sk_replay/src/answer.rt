//! What a replay answers.
ghost use Rattle.std.specs.Prelude.{◌≡◌, not};
ghost use Rattle.std.specs.List.{list_any};
ghost use Rattle.sk_replay.specs.Replaying.{is_performed, tally_denies};

use crate::row::Row;

/// The verdicts on the calls of a log.
#[derive(Drop)]
pub struct Replay {
    /// Each call once, in the order in which they first came.
    pub rows: Vec<Row>,
    /// How many lines are no call.
    pub events: u64,
    /// How many lines are not understood.
    pub unclear: u64,
    /// The numbers of the first eight of these, from 1 on.
    pub unclear_lines: Vec<u64>,
}

impl Replay {
    /// Whether some call is not performed, or some line is not understood.
    pub fn denies(&self) -> bool
        ensures denies { result ≡ tally_denies self.now.rows.items self.now.unclear }
    {
        some_denied(&self.rows) || self.unclear != 0
    }
}

fn some_denied(rows: &[Row]) -> bool
    ensures some { result ≡ list_any (λ row. not (is_performed row)) rows.now }
{
    rows.iter().any(|row| !row.is_performed())
}
