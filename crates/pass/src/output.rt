// What a pass puts out: words at their indices, the values that a frame holds, and the first fault of the names.
ghost use Rattle.std.specs.Prelude.{◌≡◌, ◌≤◌, slice_set, option_to_list};
ghost use Rattle.recipe.specs.Names.{sooner};
ghost use Rattle.pass.specs.Outputs.{word_for, Holds, emitted, pushed, faulted};

use crate::instruction::Instruction;
use recipe::Refusal;

// What the words so far come to: the index of the next one, the most values that the frame holds at once, and the first fault of the names.
#[derive(Clone, Copy, PartialEq, Eq, Debug)]
pub(crate) struct Output {
    pub(crate) at: usize,
    pub(crate) peak: usize,
    pub(crate) fault: Option<Refusal>,
}

// The earlier of two faults; at one place, the smaller cause.
fn earlier(first: Refusal, other: Refusal) -> Refusal
    ensures { result ≡ sooner first other }
{
    if (first.place, first.cause.number()) <= (other.place, other.cause.number()) {
        first
    } else {
        other
    }
}

impl Output {
    // A word at its index; past the end nothing is written, so an empty image makes a dry run.
    pub(crate) fn put(self, image: &mut [u32], instruction: Instruction)
        requires { Holds instruction }
        ensures { image.new ≡ slice_set image.old self.at (word_for instruction) }
    {
        if self.at < image.len() {
            image[self.at] = instruction.word();
        }
    }

    // Room for one word more.
    pub(crate) fn skip(self) -> Output
        requires { self.at ≤ 8192 }
        ensures { result ≡ emitted self }
    {
        Output {
            at: self.at + 1,
            ..self
        }
    }

    // One word more.
    pub(crate) fn emit(self, image: &mut [u32], instruction: Instruction) -> Output
        requires room { self.at ≤ 8192 }
        requires holds { Holds instruction }
        ensures made { result ≡ emitted self }
        ensures written { image.new ≡ slice_set image.old self.at (word_for instruction) }
    {
        self.put(image, instruction);
        self.skip()
    }

    // A word that puts a value on the frame, which holds some before.
    pub(crate) fn push(self, held: usize, image: &mut [u32], instruction: Instruction) -> Output
        requires room { self.at ≤ 8192 }
        requires few { held ≤ 4000 }
        requires holds { Holds instruction }
        ensures made { result ≡ pushed held self }
        ensures written { image.new ≡ slice_set image.old self.at (word_for instruction) }
    {
        let peak = self.peak.max(held + 1);
        Output { peak, ..self }.emit(image, instruction)
    }

    // With a fault of the names, if there is one.
    pub(crate) fn note(self, fault: Option<Refusal>) -> Output
        ensures { result ≡ faulted self (option_to_list fault) }
    {
        match fault {
            Some(other) => Output {
                fault: Some(self.fault.map_or(other, |first| earlier(first, other))),
                ..self
            },
            None => self,
        }
    }
}
