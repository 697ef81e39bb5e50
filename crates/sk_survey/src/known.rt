//! What is known of numbers in a filter while nothing is known of a call but the range of its number.
ghost use Rattle.std.specs.Prelude.{◌≡◌, ℕ, ◌<◌, Option};
ghost use Rattle.sk_insn.specs.declared.record.Record.{Record};
ghost use Rattle.sk_filter.specs.Meaning.{State};
ghost use Rattle.sk_survey.specs.Following.{Describes, DescribesWord, DescribesWords, DescribesState, IsWhole, KeepsCommon, KeepCommonWords, zeros};

/// What is known of a number.
#[derive(Clone, Copy, Debug, PartialEq, Eq)]
pub enum Known {
    /// Nothing.
    Any,
    /// It is the call's number.
    Number,
    /// It is this number.
    Is(u32),
}

impl Known {
    /// What is known where paths meet: what both of them know.
    pub fn join(self, other: Known) -> Known
        ensures one { (call : Record) (n : ℕ) → Describes self call n → Describes result call n }
        ensures other { (call : Record) (n : ℕ) → Describes other call n → Describes result call n }
        ensures same { self ≡ other → result ≡ self }
    {
        if self == other { self } else { Known::Any }
    }
}

/// What is known of the registers and of the scratch words.
#[derive(Clone, Copy, Debug)]
pub struct Knowledge {
    pub a: Known,
    pub x: Known,
    pub words: [Known; 16],
}

impl Knowledge {
    /// As a filter starts. It is known that it loads no word before it stores it: so each word may begin as 0.
    pub fn at_start() -> Knowledge
        ensures zeros { (call : Record) → DescribesState result call zeros }
        ensures whole { IsWhole result }
    {
        Knowledge {
            a: Known::Is(0),
            x: Known::Is(0),
            words: [Known::Is(0); 16],
        }
    }

    /// What is known where paths meet.
    pub fn join(&mut self, other: &Knowledge)
        ensures one { (call : Record) (s : State) → DescribesState self.old call s → DescribesState self.new call s }
        ensures other { (call : Record) (s : State) → DescribesState other.now call s → DescribesState self.new call s }
        ensures common { KeepsCommon self.old other.now self.new }
    {
        self.a = self.a.join(other.a);
        self.x = self.x.join(other.x);
        join_words(&mut self.words, &other.words);
    }
}

fn join_words(words: &mut [Known; 16], others: &[Known; 16])
    ensures one { (call : Record) (stored : ℕ → Option ℕ) → DescribesWords words.old call stored
        → DescribesWords words.new call stored }
    ensures other { (call : Record) (stored : ℕ → Option ℕ) → DescribesWords others.now call stored
        → DescribesWords words.new call stored }
    ensures common { KeepCommonWords words.old others.now words.new }
{
    for k in 0..16 {
        words[k] = words[k].join(others[k]);
    }
}
