//! How the filters of a chain hang together: each with those that were there before it, which chains share.
use crate::Checked;
use std::marker::Model;
use std::rc::Rc;

/// A filter, and the filters that were there before it.
#[derive(Drop)]
pub struct Node {
    pub newest: Checked,
    pub rest: Option<Rc<Node>>,
}

/// The filters of a chain, the newest first.
#[derive(Drop)]
pub struct Programs<'a> {
    rest: &'a Option<Rc<Node>>,
}

impl<'a> Model for Programs<'a> {
    ghost use Rattle.std.specs.Prelude.{List};
    ghost use Rattle.sk_insn.specs.declared.insn.Insn.{Insn};
    ghost use Rattle.sk_filter.specs.Nodes.{programs_of};

    ghost Value = { List (List Insn) };

    ghost view = { λ programs. programs_of programs.rest.now };
}

impl<'a> Programs<'a> {
    ghost use Rattle.std.specs.Prelude.{◌≡◌};
    ghost use Rattle.sk_filter.specs.Nodes.{programs_of};

    /// Those of this node, and behind it.
    pub(crate) fn of(rest: &'a Option<Rc<Node>>) -> Programs<'a>
        ensures programs { result ≡ programs_of rest.now }
    {
        Programs { rest }
    }
}

impl<'a> Iterator for Programs<'a> {
    ghost use Rattle.std.specs.Iterator.{YieldsFirstRef, item_count};

    type Item = &'a Checked;

    ghost next_gives = { YieldsFirstRef (λ programs. programs) };

    ghost remaining = { item_count (λ programs. programs) };

    fn next(&mut self) -> Option<&'a Checked> {
        match self.rest {
            Some(node) => {
                self.rest = &node.rest;
                Some(&node.newest)
            }
            None => None,
        }
    }
}
