//! What a text is read as: a scenario, its filters and its programs.
use crate::ScriptCall;
use std::marker::Model;

/// A program: who owns its file, whether the set-user-ID bit is set, and its calls.
#[derive(Drop)]
pub struct Program {
    pub owner: u32,
    pub setuid: bool,
    pub calls: Vec<ScriptCall>,
}

impl Model for Program {
    ghost use Rattle.std.specs.Vec.{vec_items};
    ghost use Rattle.sk_scenario.specs.Scenario.{Script};

    ghost Value = { Script };

    ghost view = { λ p. record { owner = p.owner; setuid = p.setuid; calls = vec_items p.calls } };
}

/// A scenario: how many turns it has, whether processes may become subreapers, and its filters and
/// programs, numbered in the order of the text.
#[derive(Drop)]
pub struct Scenario {
    pub turns: u32,
    pub subreapers: bool,
    pub filters: Vec<Vec<u8>>,
    pub programs: Vec<Program>,
}

impl Model for Scenario {
    ghost use Rattle.std.specs.Prelude.{map};
    ghost use Rattle.std.specs.Vec.{vec_items};
    ghost use Rattle.sk_scenario.specs.Scenario.{Setting};

    ghost Value = { Setting };

    ghost view = { λ s. record { turns = s.turns; subreapers = s.subreapers; filters = map vec_items (vec_items s.filters); programs = vec_items s.programs } };
}
