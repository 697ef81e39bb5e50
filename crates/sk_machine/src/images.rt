//! What the machine is given as the system starts: filters, programs, and whether there are subreapers.
use std::marker::Model;

/// What execve(2) finds of a program: who owns its file, and whether the set-user-ID bit is set.
#[derive(Clone, Copy, PartialEq, Eq, Debug)]
pub struct Mark {
    pub owner: u32,
    pub setuid: bool,
}

/// What calls name by numbers, the images of filters and the programs, and whether processes may mark
/// themselves as subreapers.
#[derive(Drop)]
pub struct Images {
    pub filters: Vec<Vec<u8>>,
    pub programs: Vec<Mark>,
    pub subreapers: bool,
}

impl Model for Images {
    ghost use Rattle.std.specs.Prelude.{map};
    ghost use Rattle.std.specs.Vec.{vec_items};
    ghost use Rattle.sk_machine.specs.Images.{Images, images_code};

    ghost Value = { Images };

    ghost coded = { images_code };

    ghost view = { λ declared. record { filters = map vec_items (vec_items declared.filters); programs = vec_items declared.programs; subreapers = declared.subreapers } };
}
