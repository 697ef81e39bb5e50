//! Worked examples of the definitions, as theorems. Nothing here does anything when it runs.
ghost use Rattle.std.specs.Prelude.{◌≡◌, ◌∷◌, [], ◌^◌, codes, Some, None, true, false};
ghost use Rattle.sk_text.specs.Hexadecimal.{hex_bytes, hex_half, hex_text_bytes, hex_word};
ghost use Rattle.sk_text.specs.Lines.{begins_comment, lines_of, words_of};
ghost use Rattle.sk_text.specs.Numbers.{number_of};
ghost use Rattle.sk_text.specs.Words.{is_name};

/// How texts are cut.
pub fn example_cuts()
    ensures none { lines_of [] ≡ [] }
    ensures ended { lines_of (97 ∷ (10 ∷ [])) ≡ codes "a" ∷ [] }
    ensures open { lines_of (97 ∷ (10 ∷ (10 ∷ (98 ∷ [])))) ≡ codes "a" ∷ ([] ∷ (codes "b" ∷ [])) }
    ensures spaces { words_of (codes "  ja   top ") ≡ codes "ja" ∷ (codes "top" ∷ []) }
    ensures blank { words_of (codes "   ") ≡ [] }
    ensures comment { begins_comment (words_of (codes " ;ja top")) ≡ true }
{}

/// What words are.
pub fn example_words()
    ensures decimal { number_of (codes "00255") ≡ Some 255 }
    ensures hexadecimal { number_of (codes "0xfF") ≡ Some 255 }
    ensures large { number_of (codes "18446744073709551616") ≡ Some (2 ^ 64) }
    ensures no_digit { number_of (codes "0x") ≡ None }
    ensures upper_case { number_of (codes "0X1") ≡ None }
    ensures sign { number_of (codes "+1") ≡ None }
    ensures name { is_name (codes "z09_-") ≡ true }
    ensures digit_first { is_name (codes "9a") ≡ false }
    ensures longest { is_name (codes "abcdefghijklmnopqrstuvwxyz012345") ≡ true }
    ensures too_long { is_name (codes "abcdefghijklmnopqrstuvwxyz0123456") ≡ false }
{}

/// Hexadecimal digits.
pub fn example_digits()
    ensures joined { hex_bytes (codes "0" ∷ (codes "aF" ∷ (codes "f" ∷ []))) ≡ Some (0x0a ∷ (0xff ∷ [])) }
    ensures none { hex_bytes [] ≡ Some [] }
    ensures odd { hex_bytes (codes "0" ∷ []) ≡ None }
    ensures other { hex_bytes (codes "0g" ∷ []) ≡ None }
    ensures parted { hex_text_bytes (48 ∷ (54 ∷ (10 ∷ (55 ∷ (32 ∷ (102 ∷ [])))))) ≡ Some (0x06 ∷ (0x7f ∷ [])) }
    ensures word { hex_word 0x7fff00ab ≡ codes "7fff00ab" }
    ensures half { hex_half 0x1f ≡ codes "001f" }
{}
