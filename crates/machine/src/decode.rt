// Image words, taken apart.
ghost use Rattle.std.specs.Prelude.{◌≡◌, ◌/◌, ◌%◌, ◌^◌, ◌<◌};
ghost use Rattle.machine.specs.Words.{Small, decoded, head_count, of_kind, operation};

use crate::types::Instruction;
use recipe::Op;

// The kinds of words, by the top four bits. FN, of the kind 10, and the kinds above it ask for nothing.
const NUM: u32 = 0;

const VAR: u32 = 1;

const OP: u32 = 2;

const OUT: u32 = 3;

const UNLESS: u32 = 4;

const GO: u32 = 5;

const CALL: u32 = 6;

const BACK: u32 = 7;

const WEIGH: u32 = 8;

const HEAD: u32 = 9;

// The most words of an image.
const MOST_WORDS: usize = 4096;

fn kind_of(word: u32) -> u32
    ensures { result ≡ word / 2 ^ 28 }
{
    word >> 28
}

fn operand_of(word: u32) -> u32
    ensures { result ≡ word % 2 ^ 28 }
{
    word & 0x0FFF_FFFF
}

fn target_of(operand: u32) -> u32
    ensures { result ≡ operand % 2 ^ 16 }
{
    operand & 0xFFFF
}

fn operation_of(operand: u32) -> Instruction
    ensures does { result ≡ operation operand }
    ensures small { Small result }
{
    match operand {
        0 => Instruction::Op(Op::Plus),
        1 => Instruction::Op(Op::Minus),
        2 => Instruction::Op(Op::Times),
        3 => Instruction::Op(Op::Over),
        _ => Instruction::Bad,
    }
}

fn instruction_of(kind: u32, operand: u32) -> Instruction
    requires { operand < 2 ^ 28 }
    ensures does { result ≡ of_kind kind operand }
    ensures small { Small result }
{
    match kind {
        NUM => Instruction::Num(operand),
        VAR => Instruction::Var(operand),
        OP => operation_of(operand),
        OUT if operand == 0 => Instruction::Out,
        UNLESS => Instruction::Unless(operand),
        GO => Instruction::Go(operand),
        CALL => Instruction::Call(operand >> 16, target_of(operand)),
        BACK if operand == 0 => Instruction::Back,
        WEIGH => Instruction::Weigh(operand),
        _ => Instruction::Bad,
    }
}

impl Instruction {
    // What a word asks for.
    pub fn decode(word: u32) -> Instruction
        ensures does { result ≡ decoded word }
        ensures small { Small result }
    {
        instruction_of(kind_of(word), operand_of(word))
    }
}

// The word count in an image's HEAD; none where it has no HEAD, or one that does not fit it.
pub fn head_count(image: &[u32]) -> Option<usize>
    ensures { result ≡ head_count image.now }
{
    let head = *image.first()?;
    let count = operand_of(head) as usize;
    let fits = (2..=MOST_WORDS).contains(&count) && count <= image.len();
    (kind_of(head) == HEAD && fits).then_some(count)
}
