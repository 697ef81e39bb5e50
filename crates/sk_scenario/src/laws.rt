//! Laws about the definitions. The functions do nothing; their contracts are what is proved.
ghost use Rattle.std.specs.Prelude.{◌≡◌, ◌↔◌, ℕ, List, Ok, Err};
ghost use Rattle.sk_scenario.specs.Faults.{IsFirstFaultOfText};
ghost use Rattle.sk_scenario.specs.Reading.{scenario};
ghost use Rattle.sk_scenario.specs.Scenario.{IsScenarioText, Setting};
ghost use Rattle.sk_scenario.specs.declared.text_fault.TextFault.{TextFault};

/// The two readings find the setting that a text stands for, and a text stands for at most one.
pub fn readings_find_what_a_text_stands_for()
    ensures exact { (text : List ℕ) (setting : Setting) → (scenario text ≡ Ok setting) ↔ IsScenarioText text setting }
    ensures one { (text : List ℕ) (setting other : Setting)
        → IsScenarioText text setting → IsScenarioText text other → setting ≡ other }
{}

/// Where a text stands for no setting, the two readings find the fault that goes before all others of
/// the text.
pub fn readings_find_the_first_fault()
    ensures exact { (text : List ℕ) (why : TextFault) → (scenario text ≡ Err why) ↔ IsFirstFaultOfText text why }
{}
