//! Worked examples of the definitions, as theorems. Nothing here does anything when it runs.
ghost use Rattle.std.specs.Prelude.{◌≡◌, ◌∷◌, [], codes, Ok, Err};
ghost use Rattle.sk_asm.specs.Grammar.{insn};
ghost use Rattle.sk_asm.specs.Passes.{assembled_lines};
ghost use Rattle.sk_asm.specs.declared.fault.AsmFault.TheVariants.{Line, Label, Twice, Back};

/// Short texts and their instructions.
pub fn example_texts()
    ensures nothing { assembled_lines 1 [] ≡ Ok [] }
    ensures filter { assembled_lines 1 (codes "ldabs 0" ∷ (codes "jeq 110 +0 +1" ∷ (codes "ret errno/1" ∷ (codes "ret allow" ∷ []))))
        ≡ Ok (insn 0x20 0 0 0 ∷ (insn 0x15 0 1 110 ∷ (insn 0x06 0 0 0x00050001 ∷ (insn 0x06 0 0 0x7fff0000 ∷ [])))) }
    ensures label { assembled_lines 1 (codes "ja out" ∷ (codes "ret allow" ∷ (codes "out:" ∷ [])))
        ≡ Ok (insn 0x05 0 0 1 ∷ (insn 0x06 0 0 0x7fff0000 ∷ [])) }
    ensures fields { assembled_lines 1 (codes ".insn 0x30 0 0 12" ∷ []) ≡ Ok (insn 0x30 0 0 12 ∷ []) }
    ensures comment { assembled_lines 1 (codes "; ret 0" ∷ (codes "  ret  0x0fF " ∷ [])) ≡ Ok (insn 0x06 0 0 255 ∷ []) }
{}

/// Short texts and their faults.
pub fn example_faults()
    ensures back { assembled_lines 1 (codes "top:" ∷ (codes "ja top" ∷ [])) ≡ Err (Back 2) }
    ensures twice { assembled_lines 1 (codes "a:" ∷ (codes "a:" ∷ (codes "ret allow" ∷ []))) ≡ Err (Twice 2) }
    ensures label { assembled_lines 1 (codes "jeq 1 x +0" ∷ (codes "ret allow" ∷ [])) ≡ Err (Label 1) }
    ensures line_first { assembled_lines 1 (codes "jeq 1 x +0" ∷ (codes "bogus" ∷ [])) ≡ Err (Line 2) }
    ensures data_too_large { assembled_lines 1 (codes "ret errno/65536" ∷ []) ≡ Err (Line 1) }
    ensures unknown { assembled_lines 1 (codes "ret unknown" ∷ []) ≡ Err (Line 1) }
{}
