//! The store that is a plain list.
use crate::first::first_process;
use crate::numbering::{Numbers, first_free};
use crate::scan::{Row, Sought, least_after, place};
use sk_world::{Body, INIT, Links, PROCESSES, Proc, ProcStore};
use std::alloc::{AllocError, Global};
use std::marker::Model;

/// A plain list of processes, with the last pid that was given. A call looks the list through.
#[derive(Drop)]
pub struct ListStore {
    rows: Vec<Row>,
    last: u32,
}

impl Model for ListStore {
    ghost use Rattle.sk_world.specs.World.{World};
    ghost use Rattle.sk_world.specs.views.WorldCode.{world_code};

    ghost Value = { World };

    ghost coded = { world_code };

    ghost use Rattle.sk_table.specs.ListView.{world_of, IsStore};

    ghost view = { world_of };

    ghost invariant = { IsStore };
}

impl ProcStore for ListStore {
    ghost contents = { λ world. world };

    fn new(alloc: Global) -> Result<Self, AllocError> {
        let mut rows = Vec::with_capacity(alloc, PROCESSES)?;
        rows.push_reserved(Row {
            pid: INIT,
            proc: first_process(alloc),
        });
        Ok(ListStore { rows, last: INIT })
    }

    fn get(&self, pid: u32) -> Option<&Proc> {
        let Some(place) = place(&self.rows, pid) else {
            return None;
        };
        Some(&self.rows[place].proc)
    }

    fn body_mut(&mut self, pid: u32) -> Option<&mut Body> {
        let Some(place) = place(&self.rows, pid) else {
            return None;
        };
        Some(&mut self.rows[place].proc.body)
    }

    fn relink(&mut self, pid: u32, links: Links) -> bool {
        match place(&self.rows, pid) {
            Some(i) => {
                self.rows[i].proc.links = links;
                true
            }
            None => false,
        }
    }

    fn insert(&mut self, pid: u32, proc: Proc) {
        self.rows.push_reserved(Row { pid, proc });
        self.last = pid;
    }

    fn remove(&mut self, pid: u32) -> bool {
        let Some(place) = place(&self.rows, pid) else {
            return false;
        };
        let _removed = self.rows.remove(place);
        true
    }

    fn next_child(&self, parent: u32, after: u32) -> Option<u32> {
        least_after(&self.rows, Sought::ChildOf(parent), after)
    }

    fn next_member(&self, group: u32, after: u32) -> Option<u32> {
        least_after(&self.rows, Sought::MemberOf(group), after)
    }

    fn next_pid(&self, after: u32) -> Option<u32> {
        least_after(&self.rows, Sought::Anyone, after)
    }

    fn used(&self, number: u32) -> bool {
        self.rows.is_used(number)
    }

    fn count(&self) -> usize {
        self.rows.len()
    }

    fn last(&self) -> u32 {
        self.last
    }

    fn fresh(&self) -> u32 {
        first_free(&self.rows, self.last)
    }
}
