//! One instruction on what is known.
ghost use Rattle.std.specs.Prelude.{◌≡◌, ◌≢◌, ℕ, ◌+◌, ◌≤◌, ◌<◌, ◌⊎◌, Some, IsTrue, false};
ghost use Rattle.sk_insn.specs.declared.record.Record.{Record};
ghost use Rattle.sk_insn.specs.Operations.{operation_of};
ghost use Rattle.sk_insn.specs.Record.{word_of};
ghost use Rattle.sk_filter.specs.Paths.{GoesTo, LeadsTo};
ghost use Rattle.sk_filter.specs.Fits.{TakesConstant};
ghost use Rattle.sk_filter.specs.Meaning.{State, effect, calculated, holds};
ghost use Rattle.sk_survey.specs.Answers.{IsCallOf};
ghost use Rattle.sk_survey.specs.Ends.{MayEndWith};
ghost use Rattle.sk_survey.specs.Following.{Describes, DescribesState, Leads, TellsEnd, IsExact, IsWhole, LeadsOneWay, led, known_operand, with_known, with_word};
ghost use Rattle.sk_survey.specs.Settling.{is_common_word, loads_other};

use crate::decide::decide;
use crate::known::{Knowledge, Known};
use sk_filter::calculate;
use sk_insn::{ARCHITECTURE, Arithmetic, Comparison, Insn, Operand, Operation, Register, decode};

/// Where an instruction leads.
#[derive(Clone, Copy, Debug)]
pub enum Next {
    /// To the instruction after so many others.
    Skip(u32),
    /// To either side of a conditional jump. This is known of A where the test holds.
    Either(Known),
    /// To the filter's end, with this known of its value.
    End(Known),
    /// To the instruction that follows, or to the filter's end with value 0.
    FollowingOrZero,
}

impl Knowledge {
    /// Follows one instruction for every call with a number of the range.
    pub fn follow(&mut self, insn: &Insn, first: u32, last: u32) -> Next
        requires constant { TakesConstant (operation_of insn.now.code) insn.now }
        requires range { first ≤ last }
        ensures leads { (call : Record) (s : State) → IsCallOf first last call → DescribesState self.old call s
            → Leads result insn.now self.new call (effect (operation_of insn.now.code) insn.now call s) }
        ensures goes { (place next : ℕ) → GoesTo next (led place result insn.now)
            → LeadsTo place next (operation_of insn.now.code) insn.now }
        ensures ends { (value : ℕ) → TellsEnd result value → MayEndWith value (operation_of insn.now.code) insn.now }
        ensures exact { IsWhole self.old → loads_other first last (operation_of insn.now.code) insn.now ≡ false
            → LeadsOneWay result self.new }
    {
        match decode(insn.code) {
            Some(Operation::LoadRecord) => self.set(
                Register::Accumulator,
                loaded(insn.k, first, last),
            ),
            Some(Operation::LoadConstant(register)) => self.set(register, Known::Is(insn.k)),
            Some(Operation::LoadScratch(register)) => self.set(
                register,
                self.words[insn.k as usize],
            ),
            Some(Operation::LoadLength(register)) => self.set(register, Known::Is(64)),
            Some(Operation::StoreScratch(register)) => self.store(register, insn.k),
            Some(Operation::Compute(arithmetic, operand)) => self.compute(
                arithmetic, operand, insn,
            ),
            Some(Operation::Negate) => {
                self.set(
                    Register::Accumulator,
                    calculation(Arithmetic::Subtract, Known::Is(0), self.a),
                )
            }
            Some(Operation::Jump) => Next::Skip(insn.k),
            Some(Operation::Branch(comparison, operand)) => self.branch(
                comparison, operand, insn, first, last,
            ),
            Some(Operation::ReturnConstant) => Next::End(Known::Is(insn.k)),
            Some(Operation::ReturnAccumulator) => Next::End(self.a),
            Some(Operation::CopyToIndex) => self.set(Register::Index, self.a),
            Some(Operation::CopyToAccumulator) => self.set(Register::Accumulator, self.x),
            None => unreachable!(),
        }
    }

    fn set(&mut self, register: Register, known: Known) -> Next
        ensures knows { self.new ≡ with_known register known self.old }
        ensures next { result ≡ Next.Skip 0 }
        ensures exact { IsWhole self.old → IsExact known → LeadsOneWay result self.new }
    {
        match register {
            Register::Accumulator => self.a = known,
            Register::Index => self.x = known,
        }
        Next::Skip(0)
    }

    fn store(&mut self, register: Register, word: u32) -> Next
        requires { word < 16 }
        ensures knows { self.new ≡ with_word register word self.old }
        ensures next { result ≡ Next.Skip 0 }
        ensures exact { IsWhole self.old → LeadsOneWay result self.new }
    {
        self.words[word as usize] = match register {
            Register::Accumulator => self.a,
            Register::Index => self.x,
        };
        Next::Skip(0)
    }

    fn right(&self, operand: Operand, k: u32) -> Known
        ensures operand { result ≡ known_operand operand k self.now }
        ensures exact { IsWhole self.now → IsExact result }
    {
        match operand {
            Operand::Constant => Known::Is(k),
            Operand::IndexRegister => self.x,
        }
    }

    fn compute(&mut self, arithmetic: Arithmetic, operand: Operand, insn: &Insn) -> Next
        requires constant { TakesConstant (Some (Operation.Compute arithmetic operand)) insn.now }
        ensures leads { (call : Record) (s : State) → DescribesState self.old call s
            → Leads result insn.now self.new call (effect (Some (Operation.Compute arithmetic operand)) insn.now call s) }
        ensures goes { (place next : ℕ) → GoesTo next (led place result insn.now)
            → LeadsTo place next (Some (Operation.Compute arithmetic operand)) insn.now }
        ensures ends { (value : ℕ) → TellsEnd result value
            → MayEndWith value (Some (Operation.Compute arithmetic operand)) insn.now }
        ensures exact { IsWhole self.old → LeadsOneWay result self.new }
    {
        let right = self.right(operand, insn.k);
        match (arithmetic, right) {
            (Arithmetic::Divide, Known::Is(0)) => Next::End(Known::Is(0)),
            (Arithmetic::Divide, Known::Any | Known::Number) => {
                self.a = Known::Any;
                Next::FollowingOrZero
            }
            _ => self.set(
                Register::Accumulator,
                calculation(arithmetic, self.a, right),
            ),
        }
    }

    fn branch(
        &self,
        comparison: Comparison,
        operand: Operand,
        insn: &Insn,
        first: u32,
        last: u32,
    ) -> Next
        requires range { first ≤ last }
        ensures leads { (call : Record) (s : State) → IsCallOf first last call → DescribesState self.now call s
            → Leads result insn.now self.now call (effect (Some (Operation.Branch comparison operand)) insn.now call s) }
        ensures goes { (place next : ℕ) → GoesTo next (led place result insn.now)
            → LeadsTo place next (Some (Operation.Branch comparison operand)) insn.now }
        ensures ends { (value : ℕ) → TellsEnd result value → ⊥ }
        ensures exact { IsWhole self.now → LeadsOneWay result self.now }
    {
        let right = self.right(operand, insn.k);
        match decide(comparison, self.a, right, first, last) {
            Some(true) => Next::Skip(u32::from(insn.jt)),
            Some(false) => Next::Skip(u32::from(insn.jf)),
            None => Next::Either(known_where_it_holds(comparison, self.a, right)),
        }
    }
}

// What is known of A where a test of A and the operand holds.
fn known_where_it_holds(comparison: Comparison, a: Known, right: Known) -> Known
    ensures value { (call : Record) (m n : ℕ) → Describes a call m → Describes right call n
        → IsTrue (holds comparison m n) → Describes result call m }
    ensures equal { comparison ≡ Comparison.Equal → IsExact right → result ≡ right }
    ensures kept { comparison ≢ Comparison.Equal → result ≡ a }
{
    match (comparison, right) {
        (Comparison::Equal, Known::Is(_)) => right,
        _ => a,
    }
}

// What is known of a word of the record.
fn loaded(place: u32, first: u32, last: u32) -> Known
    ensures word { (call : Record) (n : ℕ) → IsCallOf first last call → word_of call place ≡ Some n
        → Describes result call n }
    ensures exact { IsTrue (is_common_word first last place) → IsExact result }
    ensures number { place ≡ 0 → first ≢ last → result ≡ Known.Number }
{
    match place {
        0 if first == last => Known::Is(first),
        0 => Known::Number,
        4 => Known::Is(ARCHITECTURE),
        _ => Known::Any,
    }
}

// What is known of a calculation. A division by 0 has no value.
fn calculation(arithmetic: Arithmetic, left: Known, right: Known) -> Known
    ensures value { (call : Record) (m n : ℕ) → Describes left call m → Describes right call n
        → Describes result call (calculated arithmetic m n) }
    ensures exact { IsExact left → IsExact right → (arithmetic ≡ Arithmetic.Divide → right ≢ Known.Is 0)
        → IsExact result }
{
    match (left, right) {
        (Known::Is(a), Known::Is(b)) if b != 0 || arithmetic != Arithmetic::Divide => {
            Known::Is(calculate(arithmetic, a, b))
        }
        _ => Known::Any,
    }
}
