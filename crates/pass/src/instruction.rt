// What the words of an image do.
ghost use Rattle.std.specs.Prelude.{◌≡◌, ◌≤◌};
ghost use Rattle.recipe.specs.Image.{word as word_of};
ghost use Rattle.pass.specs.Outputs.{word_for, Holds};

use recipe::Op;

// The kinds of words, by their top four bits.
const NUM: u32 = 0;

const VAR: u32 = 1;

const OP: u32 = 2;

const OUT: u32 = 3;

const UNLESS: u32 = 4;

const GO: u32 = 5;

const CALL: u32 = 6;

const BACK: u32 = 7;

const WEIGH: u32 = 8;

const FN: u32 = 10;

// What a word does: it pushes a number, a variable or the weight held for a channel, joins two values, removes the one under the
// top, goes to a target (unless a value is positive), calls, returns, or begins a function.
#[derive(Clone, Copy, PartialEq, Eq, Debug)]
pub(crate) enum Instruction {
    Number(u32),
    Variable(u16),
    Operator(Op),
    Out,
    Unless(u16),
    Go(u16),
    Call { arity: u16, target: u16 },
    Back,
    Weigh(u32),
    Function(u16),
}

impl Instruction {
    // The word that stands for it.
    pub(crate) fn word(self) -> u32
        requires { Holds self }
        ensures { result ≡ word_for self }
    {
        match self {
            Instruction::Number(value) => word(NUM, value),
            Instruction::Variable(slot) => word(VAR, slot as u32),
            Instruction::Operator(Op::Plus) => word(OP, 0),
            Instruction::Operator(Op::Minus) => word(OP, 1),
            Instruction::Operator(Op::Times) => word(OP, 2),
            Instruction::Operator(Op::Over) => word(OP, 3),
            Instruction::Out => word(OUT, 0),
            Instruction::Unless(target) => word(UNLESS, target as u32),
            Instruction::Go(target) => word(GO, target as u32),
            Instruction::Call { arity, target } => {
                word(CALL, arity as u32 * 65536 + target as u32)
            }
            Instruction::Back => word(BACK, 0),
            Instruction::Weigh(channel) => word(WEIGH, channel),
            Instruction::Function(arity) => word(FN, arity as u32),
        }
    }
}

// A word: its kind, and its operand in the low 28 bits.
fn word(kind: u32, operand: u32) -> u32
    requires kind { kind ≤ 10 }
    requires operand { operand ≤ 268435455 }
    ensures { result ≡ word_of kind operand }
{
    kind * 268435456 + operand
}
