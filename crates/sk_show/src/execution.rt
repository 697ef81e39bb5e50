//! The instructions of a filter, one after the other: what each does, and for which other call it may do otherwise.
ghost use Rattle.std.specs.Prelude.{◌≡◌, ◌<◌, ◌%◌, ◌==◌, if◌then◌else◌};
ghost use Rattle.sk_insn.specs.Operations.{operation_of};
ghost use Rattle.sk_insn.specs.Record.{word_of};
ghost use Rattle.sk_filter.specs.Fits.{TakesConstant};
ghost use Rattle.sk_filter.specs.Meaning.{State, GoesOn, Ends, effect, calculated, holds, loaded, operand, register, store, with_register};
ghost use Rattle.sk_show.specs.Tracing.{state_of, effect_of};

use crate::origin::Origin;
use sk_filter::{calculate, holds};
use sk_insn::{Arithmetic, Comparison, Insn, Operand, Operation, Record, Register, decode};

/// Where an instruction leads.
#[derive(Clone, Copy)]
pub enum Next {
    /// To the instruction after so many others.
    Skip(u32),
    /// To the filter's end, with this value.
    End(u32),
    /// Nowhere: it loads a word that was not stored. No checked filter comes to that.
    Stuck,
}

/// A number, and the bits of a word of the call that it was made from, as far as that is known.
#[derive(Clone, Copy)]
pub struct Held {
    number: u32,
    from: Option<Origin>,
}

impl Held {
    fn constant(number: u32) -> Held
        ensures number { result.number ≡ number }
    {
        Held { number, from: None }
    }
}

/// The registers, and the scratch words stored so far.
#[derive(Drop)]
pub struct Run {
    a: Held,
    x: Held,
    words: [Option<Held>; 16],
}

impl Run {
    ghost use Rattle.sk_filter.specs.Meaning.{start};

    /// As a filter starts.
    pub fn new() -> Run
        ensures start { state_of result ≡ start }
    {
        Run {
            a: Held::constant(0),
            x: Held::constant(0),
            words: [None; 16],
        }
    }

    /// What A holds.
    pub fn a(&self) -> u32
        ensures a { result ≡ (state_of self.now).a }
    {
        self.a.number
    }

    /// What X holds.
    pub fn x(&self) -> u32
        ensures x { result ≡ (state_of self.now).x }
    {
        self.x.number
    }

    /// Executes an instruction for a call. Beside where it leads stands a call on which it may lead elsewhere.
    pub fn execute(&mut self, insn: &Insn, call: &Record) -> (Next, Option<Record>)
        requires constant { TakesConstant (operation_of insn.now.code) insn.now }
        ensures does { effect (operation_of insn.now.code) insn.now call.now (state_of self.old) ≡ effect_of result.0 (state_of self.new) }
    {
        match decode(insn.code) {
            Some(Operation::LoadRecord) => self.load(insn.k as u8, call),
            Some(Operation::LoadConstant(register)) => self.set(register, Held::constant(insn.k)),
            Some(Operation::LoadLength(register)) => self.set(register, Held::constant(64)),
            Some(Operation::LoadScratch(register)) => self.load_scratch(register, insn.k as usize),
            Some(Operation::StoreScratch(register)) => self.store(register, insn.k as usize),
            Some(Operation::Compute(Arithmetic::Divide, Operand::IndexRegister)) => {
                self.divide_by_index(call)
            }
            Some(Operation::Compute(arithmetic, operand)) => {
                let right = self.operand(operand, insn);
                self.compute(arithmetic, right)
            }
            Some(Operation::Negate) => self.negate(),
            Some(Operation::Jump) => (Next::Skip(insn.k), None),
            Some(Operation::Branch(comparison, operand)) => {
                let right = self.operand(operand, insn);
                self.branch(comparison, right, insn, call)
            }
            Some(Operation::CopyToIndex) => self.set(Register::Index, self.a),
            Some(Operation::CopyToAccumulator) => self.set(Register::Accumulator, self.x),
            Some(Operation::ReturnConstant) => (Next::End(insn.k), None),
            Some(Operation::ReturnAccumulator) => (Next::End(self.a.number), None),
            None => unreachable!(),
        }
    }

    fn load(&mut self, place: u8, call: &Record) -> (Next, Option<Record>)
        requires aligned { place % 4 ≡ 0 }
        requires inside { place < 64 }
        ensures does { loaded Register.Accumulator (state_of self.old) (word_of call.now place) ≡ effect_of result.0 (state_of self.new) }
    {
        let from = Origin {
            place,
            bits: u32::MAX,
        };
        let number = call.word(place);
        self.set(
            Register::Accumulator,
            Held {
                number,
                from: Some(from),
            },
        )
    }

    fn load_scratch(&mut self, register: Register, word: usize) -> (Next, Option<Record>)
        requires inside { word < 16 }
        ensures does { loaded register (state_of self.old) ((state_of self.old).stored word) ≡ effect_of result.0 (state_of self.new) }
    {
        match self.words[word] {
            Some(held) => self.set(register, held),
            None => (Next::Stuck, None),
        }
    }

    fn store(&mut self, stored: Register, word: usize) -> (Next, Option<Record>)
        requires inside { word < 16 }
        ensures state { state_of self.new ≡ record (state_of self.old) { stored = store word (register stored (state_of self.old)) (state_of self.old).stored } }
        ensures next { result.0 ≡ Next.Skip 0 }
    {
        self.words[word] = Some(match stored {
            Register::Accumulator => self.a,
            Register::Index => self.x,
        });
        (Next::Skip(0), None)
    }

    fn set(&mut self, register: Register, held: Held) -> (Next, Option<Record>)
        ensures state { state_of self.new ≡ with_register register held.number (state_of self.old) }
        ensures next { result.0 ≡ Next.Skip 0 }
    {
        match register {
            Register::Accumulator => self.a = held,
            Register::Index => self.x = held,
        }
        (Next::Skip(0), None)
    }

    fn operand(&self, right: Operand, insn: &Insn) -> Held
        ensures number { result.number ≡ operand right insn.now (state_of self.now) }
    {
        match right {
            Operand::Constant => Held::constant(insn.k),
            Operand::IndexRegister => self.x,
        }
    }

    // A division by X = 0 ends the filter, so another X may turn it.
    fn divide_by_index(&mut self, call: &Record) -> (Next, Option<Record>)
        ensures ends { self.old.x.number ≡ 0 → result.0 ≡ Next.End 0 }
        ensures next { 0 < self.old.x.number → result.0 ≡ Next.Skip 0 }
        ensures state { 0 < self.old.x.number → state_of self.new ≡ record (state_of self.old) { a = calculated Arithmetic.Divide self.old.a.number self.old.x.number } }
    {
        let right = self.x;
        if right.number == 0 {
            let other = right.from.map(|from| from.with(call, u32::MAX));
            return (Next::End(0), other);
        }
        let (next, _) = self.compute(Arithmetic::Divide, right);
        (next, right.from.map(|from| from.with(call, 0)))
    }

    fn compute(&mut self, arithmetic: Arithmetic, right: Held) -> (Next, Option<Record>)
        requires divisor { arithmetic ≡ Arithmetic.Divide → 0 < right.number }
        ensures state { state_of self.new ≡ record (state_of self.old) { a = calculated arithmetic self.old.a.number right.number } }
        ensures next { result.0 ≡ Next.Skip 0 }
    {
        let number = calculate(arithmetic, self.a.number, right.number);
        let from = made_from(arithmetic, self.a, right);
        self.set(Register::Accumulator, Held { number, from })
    }

    fn negate(&mut self) -> (Next, Option<Record>)
        ensures state { state_of self.new ≡ record (state_of self.old) { a = calculated Arithmetic.Subtract 0 self.old.a.number } }
        ensures next { result.0 ≡ Next.Skip 0 }
    {
        let number = self.a.number.wrapping_neg();
        let from = made_from(Arithmetic::Subtract, Held::constant(0), self.a);
        self.set(Register::Accumulator, Held { number, from })
    }

    fn branch(
        &self,
        comparison: Comparison,
        right: Held,
        insn: &Insn,
        call: &Record,
    ) -> (Next, Option<Record>)
        ensures next { result.0 ≡ Next.Skip (if holds comparison self.now.a.number right.number then insn.now.jt else insn.now.jf) }
    {
        let held = holds(comparison, self.a.number, right.number);
        let skip = if held { insn.jt } else { insn.jf };
        let other = self.a.from.map(|from| from.turned(
            call,
            comparison,
            self.a.number,
            right.number,
            held,
        ));
        (Next::Skip(u32::from(skip)), other)
    }
}

// Bits that are kept are known by their places; after any other calculation the whole word is a guess.
fn made_from(arithmetic: Arithmetic, a: Held, right: Held) -> Option<Origin> {
    let from = a.from.or(right.from)?;
    let bits = match arithmetic {
        Arithmetic::And if right.from.is_none() => from.bits & right.number,
        _ => u32::MAX,
    };
    Some(Origin {
        place: from.place,
        bits,
    })
}
