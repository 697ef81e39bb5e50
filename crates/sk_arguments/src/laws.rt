//! Laws on the tables. No program calls these functions: the contract of each is the law.
ghost use Rattle.std.specs.Prelude.{◌≡◌, length, IsTrue};
ghost use Rattle.std.specs.List.{list_all};
ghost use Rattle.sk_arguments.specs.Constants.{all_names, all_numbers};
ghost use Rattle.sk_arguments.specs.Laws.{FormsAreSound, ReadsBack, is_identifier};
ghost use Rattle.sk_arguments.specs.Worked.{WorkedConstants, WorkedForms, WorkedKinds, WorkedNaming, WorkedPlaces, WorkedRows};

/// Each number has a name, and each name is read as its number, and is an identifier of C.
pub fn constants_are_named()
    ensures long { length all_names ≡ length all_numbers }
    ensures read { ReadsBack }
    ensures identifiers { IsTrue (list_all is_identifier all_names) }
{}

/// No set has a number twice. Of bits those with more of them stand first, and each field is apart from the bits beside it.
pub fn forms_are_sound()
    ensures sound { FormsAreSound }
{}

/// The definitions give what the manual and the headers have.
pub fn worked_rows()
    ensures kinds { WorkedKinds }
    ensures places { WorkedPlaces }
    ensures rows { WorkedRows }
    ensures constants { WorkedConstants }
    ensures forms { WorkedForms }
    ensures naming { WorkedNaming }
{}
