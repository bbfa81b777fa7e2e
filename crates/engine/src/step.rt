// One step of a run.
ghost use Rattle.std.specs.Prelude.{◌≡◌, drop, length, Ok};
ghost use Rattle.machine.specs.Steps.{carried, frame_room, planned, stepped, step as step_of};
ghost use Rattle.engine.specs.Frames.{Fair, IsSameLoan, held_at};

use crate::frame::Frame;
use crate::memory::{Memory, Program};
use crate::words::IMPOSSIBLE;
use arithmetic::Arithmetic;
use machine::{Effect, Fault, Instruction};

impl<N: Arithmetic> Memory<'_, N> {
    // Writes what a word comes to, and tells the value of a run that it ends.
    fn carry(&mut self, effect: Effect<N>) -> Option<i32>
        requires { Fair self.old.registers effect }
        ensures loan { IsSameLoan self.old self.new }
        ensures does { stepped (Ok result) self.new.registers self.new.stack.now self.new.returns.now
            ≡ carried N.Arithmetic.rules self.old.registers self.old.stack.now self.old.returns.now (Ok effect) }
    {
        let m = self.registers;
        match effect {
            Effect::Put(next, place, value) => {
                let index = m.base + place;
                self.stack[index] = value;
                self.registers = next;
                None
            }
            Effect::Move(next) => {
                self.registers = next;
                None
            }
            Effect::Enter(next, entry) => {
                self.returns[m.nesting] = entry;
                self.registers = next;
                None
            }
            Effect::End(next, value) => {
                let shown = value.shown();
                self.stack[m.base] = value;
                self.registers = next;
                Some(shown)
            }
        }
    }

    // What the word at the run's index comes to.
    fn plan(&self, program: &Program) -> Result<Effect<N>, Fault>
        ensures { result ≡ planned frame_room N.Arithmetic.rules (held_at program.now.held.now) (length program.now.image.now) program.now.image.now
            self.now.registers (drop self.now.registers.base self.now.stack.now) self.now.returns.now }
    {
        let registers = self.registers;
        let Some(word) = program.image.get(registers.index) else {
            return Err(IMPOSSIBLE);
        };
        let frame = Frame {
            registers,
            values: &self.stack[registers.base..],
            returns: &*self.returns,
            held: program.held,
            count: program.image.len(),
        };
        frame.plan(Instruction::decode(*word))
    }

    // Carries out the word at the run's index. What lies below the frame stays as it is, and a fault leaves all as it was.
    pub(crate) fn step(&mut self, program: &Program) -> Result<Option<i32>, Fault>
        ensures loan { IsSameLoan self.old self.new }
        ensures does { stepped result self.new.registers self.new.stack.now self.new.returns.now
            ≡ step_of frame_room N.Arithmetic.rules (held_at program.now.held.now) (length program.now.image.now) program.now.image.now
            self.old.registers self.old.stack.now self.old.returns.now }
    {
        let effect = self.plan(program)?;
        Ok(self.carry(effect))
    }
}
