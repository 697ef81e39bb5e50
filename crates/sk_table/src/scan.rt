//! Looks through a list of processes: for a place, for a number, for the least pid above another.
ghost use Rattle.std.specs.Prelude.{◌≡◌, ◌==◌, position, min};
ghost use Rattle.std.specs.Option.{option_map_or};
ghost use Rattle.std.specs.List.{list_any};
ghost use Rattle.sk_world.specs.World.{IsNext};
ghost use Rattle.sk_table.specs.Rows.{Distinct, row_has_number, is_sought, is_sought_pid};

use crate::numbering::Numbers;
use sk_world::Proc;

/// A process in the list, and its pid.
#[derive(Drop)]
pub struct Row {
    pub pid: u32,
    pub proc: Proc,
}

/// The place of the process.
pub fn place(rows: &[Row], pid: u32) -> Option<usize>
    ensures { result ≡ position (λ row. row.pid == pid) rows.now }
{
    rows.iter().position(|row| row.pid == pid)
}

/// The numbers that a process has.
impl Numbers for Vec<Row> {
    ghost use Rattle.std.specs.List.{list_any};
    ghost use Rattle.sk_table.specs.Rows.{row_has_number};

    ghost used = { λ rows n. list_any (row_has_number n) rows.items };

    fn is_used(&self, number: u32) -> bool {
        self.iter().any(|row| {
            row.pid == number || row.proc.links.group == number || row.proc.links.session == number
        })
    }
}

/// Which processes are sought.
#[derive(Clone, Copy)]
pub enum Sought {
    ChildOf(u32),
    MemberOf(u32),
    Anyone,
}

impl Sought {
    fn accepts(self, proc: &Proc) -> bool
        ensures { result ≡ is_sought self proc.now }
    {
        match self {
            Sought::ChildOf(parent) => proc.links.parent == parent,
            Sought::MemberOf(group) => proc.links.group == group,
            Sought::Anyone => true,
        }
    }
}

/// The least pid above `after` of a process that is sought.
pub fn least_after(rows: &[Row], sought: Sought, after: u32) -> Option<u32>
    requires { Distinct rows.now }
    ensures { IsNext (is_sought_pid sought rows.now) after result }
{
    let mut least = None;
    for row in rows {
        if row.pid > after && sought.accepts(&row.proc) {
            least = Some(lesser(least, row.pid));
        }
    }
    least
}

// The lesser of the pid that was found, if any, and another one.
fn lesser(found: Option<u32>, pid: u32) -> u32
    ensures { result ≡ option_map_or (λ found. min found pid) found pid }
{
    found.map_or(pid, |found| found.min(pid))
}
