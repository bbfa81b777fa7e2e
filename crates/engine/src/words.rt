// What each word comes to in its frame, before anything is written.
ghost use Rattle.std.specs.Prelude.{◌≡◌, ◌-◌, ◌<◌, ◌≤◌, Err, slice_index_or};
ghost use Rattle.reading.specs.AtChannel.{told_at};
ghost use Rattle.reading.specs.declared.fault.ReadingFault.TheVariants.{NotFitted};
ghost use Rattle.machine.specs.declared.types.Instruction.TheVariants.{Num, Var, Op as Operate, Out, Unless, Go, Call, Back, Weigh};
ghost use Rattle.machine.specs.Words.{Small};
ghost use Rattle.machine.specs.Steps.{applied, frame_room, jumped, onward, pushed};
ghost use Rattle.engine.specs.Frames.{comes_to};

use crate::frame::{Frame, Held};
use arithmetic::{Arithmetic, ArithmeticFault};
use machine::{ChannelFault, Effect, EngineFault, Fault, Instruction, Registers, Return};
use recipe::Op;
use weight::Weight;

// The values that a frame has room for.
const ROOM: usize = 32;

// The nesting at which no further call is made.
const DEEPEST: usize = 128;

pub(crate) const IMPOSSIBLE: Fault = Fault::OfEngine(EngineFault::Impossible);

fn operate<N: Arithmetic>(op: Op, left: N, right: N) -> Result<N, ArithmeticFault>
    ensures { result ≡ applied N.Arithmetic.rules op left right }
{
    match op {
        Op::Plus => left.plus(right),
        Op::Minus => left.minus(right),
        Op::Times => left.times(right),
        Op::Over => left.over(right),
    }
}

// The weight held for a channel, or its fault.
fn hear(held: &Held, channel: u32) -> Result<Weight, ChannelFault>
    requires { (1 ≤ channel) × (channel ≤ 64) }
    ensures { result ≡ told_at channel (slice_index_or held.now (channel - 1) (Err NotFitted)) }
{
    held[channel as usize - 1].map_err(|fault| ChannelFault { channel, fault })
}

impl<N: Arithmetic> Frame<'_, N> {
    // At the next word, with a frame of so many values.
    fn onward(&self, len: usize) -> Registers
        ensures { result ≡ onward self.now.registers len }
    {
        Registers {
            index: self.registers.index + 1,
            len,
            ..self.registers
        }
    }

    // At a target.
    fn jumped(&self, target: usize, len: usize) -> Registers
        ensures { result ≡ jumped self.now.registers target len }
    {
        Registers {
            index: target,
            len,
            ..self.registers
        }
    }

    // One more value on top.
    fn push(&self, value: N) -> Result<Effect<N>, Fault>
        ensures { result ≡ pushed frame_room self.now.registers value }
    {
        let len = self.registers.len;
        if len >= ROOM {
            return Err(IMPOSSIBLE);
        }
        Ok(Effect::Put(self.onward(len + 1), len, value))
    }

    fn number(&self, n: u32) -> Result<Effect<N>, Fault>
        requires { n < 268435456 }
        ensures { result ≡ comes_to N.Arithmetic.rules self.now (Num n) }
    {
        self.push(N::whole(Weight::new(n as i32).unwrap()))
    }

    fn variable(&self, slot: usize) -> Result<Effect<N>, Fault>
        ensures { result ≡ comes_to N.Arithmetic.rules self.now (Var slot) }
    {
        if slot >= self.registers.len {
            return Err(IMPOSSIBLE);
        }
        self.push(self.values[slot])
    }

    // Two values give way to one.
    fn join(&self, op: Op) -> Result<Effect<N>, Fault>
        ensures { result ≡ comes_to N.Arithmetic.rules self.now (Operate op) }
    {
        let len = self.registers.len;
        if len < 2 {
            return Err(IMPOSSIBLE);
        }
        let value = operate(op, self.values[len - 2], self.values[len - 1])?;
        Ok(Effect::Put(self.onward(len - 1), len - 2, value))
    }

    fn out(&self) -> Result<Effect<N>, Fault>
        ensures { result ≡ comes_to N.Arithmetic.rules self.now Out }
    {
        let len = self.registers.len;
        if len <= 1 {
            return Err(IMPOSSIBLE);
        }
        Ok(Effect::Put(self.onward(len - 1), len - 2, self.values[len - 1]))
    }

    fn unless(&self, target: usize) -> Result<Effect<N>, Fault>
        ensures { result ≡ comes_to N.Arithmetic.rules self.now (Unless target) }
    {
        let len = self.registers.len;
        if target >= self.count || len == 0 {
            return Err(IMPOSSIBLE);
        }
        let next = if self.values[len - 1].positive() {
            self.onward(len - 1)
        } else {
            self.jumped(target, len - 1)
        };
        Ok(Effect::Move(next))
    }

    fn go(&self, target: usize) -> Result<Effect<N>, Fault>
        ensures { result ≡ comes_to N.Arithmetic.rules self.now (Go target) }
    {
        if target >= self.count {
            return Err(IMPOSSIBLE);
        }
        Ok(Effect::Move(self.jumped(target, self.registers.len)))
    }

    fn call(&self, arity: usize, target: usize) -> Result<Effect<N>, Fault>
        ensures { result ≡ comes_to N.Arithmetic.rules self.now (Call arity target) }
    {
        let m = self.registers;
        if !(1..=8).contains(&arity) || target >= self.count || arity > m.len {
            return Err(IMPOSSIBLE);
        }
        if m.nesting >= DEEPEST {
            return Err(Fault::OfEngine(EngineFault::TooDeep));
        }
        let entry = Return {
            base: m.base as u32,
            next: (m.index + 1) as u32,
        };
        let body = Registers {
            index: target,
            base: m.base + (m.len - arity),
            len: arity,
            nesting: m.nesting + 1,
        };
        Ok(Effect::Enter(body, entry))
    }

    fn back(&self) -> Result<Effect<N>, Fault>
        ensures { result ≡ comes_to N.Arithmetic.rules self.now Back }
    {
        let m = self.registers;
        if m.len == 0 {
            return Err(IMPOSSIBLE);
        }
        let value = self.values[m.len - 1];
        if m.nesting == 0 {
            return Ok(Effect::End(Registers { len: 1, ..m }, value));
        }
        let nesting = m.nesting - 1;
        let saved = self.returns[nesting];
        let base = saved.base as usize;
        if base > m.base || m.base - base > ROOM - 1 || base > (ROOM - 1) * nesting {
            return Err(IMPOSSIBLE);
        }
        let caller = Registers {
            index: saved.next as usize,
            base,
            len: m.base - base + 1,
            nesting,
        };
        Ok(Effect::Put(caller, 0, value))
    }

    fn weigh(&self, channel: u32) -> Result<Effect<N>, Fault>
        ensures { result ≡ comes_to N.Arithmetic.rules self.now (Weigh channel) }
    {
        if !(1..=64).contains(&channel) || self.registers.len >= ROOM {
            return Err(IMPOSSIBLE);
        }
        let weight = hear(self.held, channel)?;
        self.push(N::whole(weight))
    }

    // What an instruction comes to.
    pub(crate) fn plan(&self, instruction: Instruction) -> Result<Effect<N>, Fault>
        requires { Small instruction }
        ensures { result ≡ comes_to N.Arithmetic.rules self.now instruction }
    {
        match instruction {
            Instruction::Num(n) => self.number(n),
            Instruction::Var(slot) => self.variable(slot as usize),
            Instruction::Op(op) => self.join(op),
            Instruction::Out => self.out(),
            Instruction::Unless(target) => self.unless(target as usize),
            Instruction::Go(target) => self.go(target as usize),
            Instruction::Call(arity, target) => self.call(arity as usize, target as usize),
            Instruction::Back => self.back(),
            Instruction::Weigh(channel) => self.weigh(channel),
            Instruction::Bad => Err(IMPOSSIBLE),
        }
    }
}
