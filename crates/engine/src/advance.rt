// The calls of a run.
ghost use Rattle.std.specs.Prelude.{◌≡◌, ◌+◌, ◌<◌, ◌≤◌, true, length, if◌then◌else◌, nat_lt};
ghost use Rattle.std.specs.Option.{option_map};
ghost use Rattle.machine.specs.declared.types.Status.TheVariants.{Going};
ghost use Rattle.machine.specs.Steps.{Sound, frame_room};
ghost use Rattle.machine.specs.Runs.{cost as cost_of, granted, scene, status_after};
ghost use Rattle.engine.specs.Frames.{IsSameLoan, held_at};
ghost use Rattle.engine.specs.Courses.{advanced, begun_course, course, course_of, left, too_short};
ghost use Rattle.engine.specs.Loops.{run_after, run_at, standing, stops};

use crate::frame::Held;
use crate::memory::{Memory, Program};
use crate::run::Run;
use arithmetic::Arithmetic;
use machine::{EngineFault, Fault, Registers, Return, RunFault, Status, head_count};

// Whether a run ends with a step that answers so.
fn stops(answer: Result<Option<i32>, Fault>) -> bool
    ensures { result ≡ stops answer }
{
    !matches!(answer, Ok(None))
}

// What a step counts: nothing when its word can't be carried out.
fn cost(answer: Result<Option<i32>, Fault>) -> u64
    ensures { result ≡ cost_of answer }
{
    if matches!(answer, Err(Fault::OfEngine(EngineFault::Impossible))) {
        0
    } else {
        1
    }
}

fn status_after(
    answer: Result<Option<i32>, Fault>,
    index: usize,
    used: u64,
    allowance: u64,
) -> Status
    ensures { result ≡ status_after answer index used allowance }
{
    match answer {
        Ok(None) if used < allowance => Status::Going,
        Ok(None) => Status::Spent,
        Ok(Some(grams)) => Status::Ended(grams),
        Err(fault) => Status::Failed(RunFault { fault, index }),
    }
}

// Whether the memory lent is too short for a run of so many words.
fn too_short<N: Arithmetic>(count: usize, image: &[u32], stack: &[N], returns: &[Return]) -> bool
    ensures { result ≡ too_short count image.now stack.now returns.now }
{
    image.len() < count || stack.len() < 4128 || returns.len() < 128
}

impl Run {
    // A run of the image at its first word; none where the allowance is 0 or the image has no HEAD that fits it.
    pub fn begin(image: &[u32], allowance: u64) -> Option<Run>
        ensures { option_map course_of result ≡ begun_course image.now allowance }
    {
        if allowance == 0 {
            return None;
        }
        let count = head_count(image)?;
        Some(Run {
            registers: Registers {
                index: 1,
                base: 0,
                len: 0,
                nesting: 0,
            },
            used: 0,
            allowance,
            status: Status::Going,
            count,
        })
    }

    pub fn status(&self) -> Status
        ensures { result ≡ (course_of self.now).run.status }
    {
        self.status
    }

    // The steps used since the run's beginning.
    pub fn used(&self) -> u64
        ensures { result ≡ (course_of self.now).run.used }
    {
        self.used
    }

    // The run elsewhere, after so many steps that let it go on.
    fn moved(self, registers: Registers, made: u64) -> Run
        requires sound { Sound frame_room registers }
        requires fits { self.used + made ≤ self.allowance }
        ensures { course_of result
            ≡ course (run_at (course_of self).run registers made (standing (self.used + made) self.allowance)) self.count }
    {
        let used = self.used + made;
        Run {
            registers,
            used,
            allowance: self.allowance,
            status: status_after(Ok(None), registers.index, used, self.allowance),
            count: self.count,
        }
    }

    // The same, after one more step that ended it.
    fn stopped(self, registers: Registers, made: u64, answer: Result<Option<i32>, Fault>) -> Run
        requires sound { Sound frame_room registers }
        requires fits { self.used + made < self.allowance }
        requires stops { stops answer ≡ true }
        ensures { course_of result ≡ course (run_after (course_of self).run registers made answer) self.count }
    {
        let used = self.used + made + cost(answer);
        Run {
            registers,
            used,
            allowance: self.allowance,
            status: status_after(answer, registers.index, used, self.allowance),
            count: self.count,
        }
    }

    // The run after its granted steps, where it goes on before them.
    fn make_steps<N: Arithmetic>(self, program: &Program, memory: &mut Memory<N>, grant: u64) -> Run
        requires going { self.status ≡ Going }
        requires stands { memory.old.registers ≡ self.registers }
        ensures loan { IsSameLoan memory.old memory.new }
        ensures does { scene (course_of result).run memory.new.stack.now memory.new.returns.now
            ≡ granted frame_room N.Arithmetic.rules (held_at program.now.held.now) (length program.now.image.now) program.now.image.now grant
            (scene (course_of self).run memory.old.stack.now memory.old.returns.now) }
        ensures count { result.count ≡ self.count }
    {
        let most = grant.min(self.allowance - self.used);
        for made in 0..most {
            let answer = memory.step(program);
            if stops(answer) {
                return self.stopped(memory.registers, made, answer);
            }
        }
        self.moved(memory.registers, most)
    }

    // The same, in the memory that is lent.
    fn go_on<N: Arithmetic>(
        self,
        image: &[u32],
        held: &Held,
        stack: &mut [N],
        returns: &mut [Return],
        grant: u64,
    ) -> Run
        requires going { self.status ≡ Going }
        requires image { self.count ≤ length image.now }
        requires room { 4128 ≤ length stack.old }
        requires table { 128 ≤ length returns.old }
        ensures does { scene (course_of result).run stack.new returns.new
            ≡ granted frame_room N.Arithmetic.rules (held_at held.now) self.count image.now grant (scene (course_of self).run stack.old returns.old) }
        ensures count { result.count ≡ self.count }
    {
        let program = Program {
            image: &image[..self.count],
            held,
        };
        let mut memory = Memory {
            registers: self.registers,
            stack,
            returns,
        };
        self.make_steps(&program, &mut memory, grant)
    }

    // Makes as many steps as are granted, fewer only where the run or its allowance ends, and tells how the run stands
    // and the steps used since its beginning. None, and nothing changes, where the memory is too short.
    pub fn advance<N: Arithmetic>(
        &mut self,
        image: &[u32],
        held: &Held,
        stack: &mut [N],
        returns: &mut [Return],
        grant: u64,
    ) -> Option<(Status, u64)>
        ensures { left result (course_of self.new) stack.new returns.new
            ≡ advanced N.Arithmetic.rules (held_at held.now) image.now grant (course_of self.old) stack.old returns.old }
    {
        if too_short(self.count, image, stack, returns) {
            return None;
        }
        if self.status == Status::Going {
            *self = self.go_on(image, held, stack, returns, grant);
        }
        Some((self.status, self.used))
    }
}
