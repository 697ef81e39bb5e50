//! Worked examples of the definitions, as theorems. Nothing here does anything when it runs.
ghost use Rattle.std.specs.Prelude.{◌≡◌, ◌∷◌, ◌++◌, [], codes, replicate, Ok, Err};
ghost use Rattle.sk_scenario.specs.Reading.{scenario_of};
ghost use Rattle.sk_scenario.specs.Scenario.{IsScenario};
ghost use Rattle.sk_scenario.specs.laws.WorkedScenarios.{setting_with, attaching, attaching_setting, by_number, by_number_setting, arguments, arguments_setting, forks, forks_setting, bytes, bytes_setting, filter_lines, filter_image, cut_behind_getp, cut_behind_getppid, program_with, headings, headings_setting, greatest, greatest_setting, longest, too_long};
ghost use Rattle.sk_scenario.specs.declared.text_fault.TextFault.TheVariants.{Line, Unresolved, Limit};

/// Short scenarios and what they stand for.
pub fn example_scenarios()
    ensures nothing { scenario_of [] ≡ Ok (setting_with [] []) }
    ensures spaces { scenario_of (replicate 255 32 ∷ []) ≡ Ok (setting_with [] []) }
    ensures filter { scenario_of filter_lines ≡ Ok (setting_with (filter_image ∷ []) []) }
    ensures attaching { scenario_of attaching ≡ Ok attaching_setting }
    ensures attaching_stands { IsScenario attaching attaching_setting }
    ensures number { scenario_of by_number ≡ Ok by_number_setting }
    ensures arguments { scenario_of arguments ≡ Ok arguments_setting }
    ensures forks { scenario_of forks ≡ Ok forks_setting }
    ensures bytes { scenario_of bytes ≡ Ok bytes_setting }
    ensures headings { scenario_of headings ≡ Ok headings_setting }
    ensures greatest { scenario_of greatest ≡ Ok greatest_setting }
{}

/// Short texts that are no scenarios, and their first faults.
pub fn example_faults()
    ensures no_end { scenario_of (codes "program init" ∷ (codes "getpid" ∷ [])) ≡ Err (Line 3) }
    ensures no_name { scenario_of (codes "program init" ∷ (codes "execve @x" ∷ (codes "end" ∷ []))) ≡ Err (Unresolved 2) }
    ensures no_program { scenario_of (codes "program a" ∷ (codes "fork f" ∷ (codes "end" ∷ (codes "filter f" ∷ (codes "end" ∷ []))))) ≡ Err (Unresolved 2) }
    ensures line_first { scenario_of (codes "program init" ∷ (codes "execve @x" ∷ (codes "end" ∷ (codes "bogus" ∷ [])))) ≡ Err (Line 4) }
    ensures cut_word { scenario_of cut_behind_getp ≡ Err (Line 9) }
    ensures cut_line { scenario_of cut_behind_getppid ≡ Err (Line 10) }
    ensures subreapers_twice { scenario_of (codes "subreapers" ∷ (codes "subreapers" ∷ [])) ≡ Err (Line 2) }
    ensures odd_digits { scenario_of (codes "filter f" ∷ (codes "bytes 06 0" ∷ (codes "bytes 0" ∷ (codes "end" ∷ [])))) ≡ Err (Line 2) }
    ensures no_end_of_code { scenario_of (codes "filter f" ∷ (codes "a:" ∷ (codes "ja a" ∷ (codes "end x" ∷ [])))) ≡ Err (Line 4) }
    ensures open_code { scenario_of (codes "filter f" ∷ (codes "a:" ∷ (codes "ja a" ∷ []))) ≡ Err (Line 3) }
    ensures label_waits { scenario_of (codes "filter f" ∷ (codes "ja a" ∷ (codes "end" ∷ (codes "filter f" ∷ [])))) ≡ Err (Line 4) }
    ensures label { scenario_of (codes "filter f" ∷ (codes "ja a" ∷ (codes "end" ∷ []))) ≡ Err (Unresolved 2) }
    ensures fork_of_value { scenario_of (codes "program a" ∷ (codes "fork @a" ∷ (codes "end" ∷ []))) ≡ Err (Line 2) }
    ensures argument_of_65_bits { scenario_of (program_with (codes "kill 18446744073709551616")) ≡ Err (Line 2) }
    ensures argument_below_63_bits { scenario_of (program_with (codes "kill 1 -9223372036854775809")) ≡ Err (Line 2) }
    ensures negative_hexadecimal { scenario_of (program_with (codes "kill 1 -0x1")) ≡ Err (Line 2) }
    ensures seven_arguments { scenario_of (program_with (codes "kill 1 2 3 4 5 6 7")) ≡ Err (Line 2) }
    ensures number_of_33_bits { scenario_of (program_with (codes "call 4294967296")) ≡ Err (Line 2) }
    ensures handler_of_a_filter { scenario_of (program_with (codes "kill &f") ++ (codes "filter f" ∷ (codes "end" ∷ []))) ≡ Err (Unresolved 2) }
    ensures owner_of_nobody { scenario_of (codes "program a owner 4294967295" ∷ (codes "end" ∷ [])) ≡ Err (Line 1) }
    ensures word_behind_setuid { scenario_of (codes "program a setuid x" ∷ (codes "end" ∷ [])) ≡ Err (Line 1) }
    ensures word_behind_subreapers { scenario_of (codes "subreapers x" ∷ []) ≡ Err (Line 1) }
{}

/// Short texts over a limit.
pub fn example_limits()
    ensures turns { scenario_of (codes "turns 0" ∷ []) ≡ Err (Limit 1) }
    ensures turns_long { scenario_of (codes "turns 99999999999999999999999" ∷ []) ≡ Err (Limit 1) }
    ensures turns_again { scenario_of (codes "turns 1" ∷ (codes "turns 0" ∷ [])) ≡ Err (Line 2) }
    ensures spaces { scenario_of ([] ∷ ([] ∷ (replicate 256 32 ∷ []))) ≡ Err (Limit 3) }
{}

/// The longest image, and one of a byte more.
pub fn example_images()
    ensures longest { scenario_of longest ≡ Ok (setting_with (replicate 32776 0 ∷ []) []) }
    ensures too_long { scenario_of too_long ≡ Err (Limit 266) }
{}
