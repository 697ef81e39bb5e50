//! Laws about the definitions, and worked texts. No program calls these functions: the contract of each is the law.
ghost use Rattle.sk_forms.specs.RoundTrip.{ArraysComeBack, Base64ComesBack, DecimalsComeBack, FiltersComeBack};
ghost use Rattle.sk_forms.specs.WorkedArrays.{WorkedArrays};
ghost use Rattle.sk_forms.specs.WorkedDecimals.{WorkedDecimals};
ghost use Rattle.sk_forms.specs.WorkedDumps.{WorkedDumps};
ghost use Rattle.sk_forms.specs.WorkedMacros.{WorkedMacros};
ghost use Rattle.sk_forms.specs.WorkedStrings.{WorkedStrings};
ghost use Rattle.sk_forms.specs.WorkedTables.{WorkedTables};
ghost use Rattle.sk_forms.specs.WorkedWriting.{WorkedWriting};

/// The definition reads arrays as they were read by hand.
#[tactic(auto, using(crate::proofs::Examples::worked_arrays))]
pub fn worked_arrays()
    ensures law { WorkedArrays }
{}

/// The definition reads decimals as they were read by hand.
#[tactic(auto, using(crate::proofs::Examples::worked_decimals))]
pub fn worked_decimals()
    ensures law { WorkedDecimals }
{}

/// The definition reads macros as they were read by hand.
#[tactic(auto, using(crate::proofs::Examples::worked_macros))]
pub fn worked_macros()
    ensures law { WorkedMacros }
{}

/// The definition reads tables as they were read by hand.
#[tactic(auto, using(crate::proofs::Examples::worked_tables))]
pub fn worked_tables()
    ensures law { WorkedTables }
{}

/// The definition reads dumps and arrays of bytes as they were read by hand.
#[tactic(auto, using(crate::proofs::Examples::worked_dumps))]
pub fn worked_dumps()
    ensures law { WorkedDumps }
{}

/// The definition reads strings and base64 as they were read by hand.
#[tactic(auto, using(crate::proofs::Examples::worked_strings))]
pub fn worked_strings()
    ensures law { WorkedStrings }
{}

/// The definitions write what tools wrote.
#[tactic(auto, using(crate::proofs::Examples::worked_writing))]
pub fn worked_writing()
    ensures law { WorkedWriting }
{}

/// What an array says is read as the instructions that it was written of.
pub fn arrays_come_back()
    ensures law { ArraysComeBack }
{}

/// What decimals say is read as the instructions that they were written of.
pub fn decimals_come_back()
    ensures law { DecimalsComeBack }
{}

/// What base64 says is read as the image that it was written of.
pub fn base64_comes_back()
    ensures image { Base64ComesBack }
    ensures filter { FiltersComeBack }
{}
