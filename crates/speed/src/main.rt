// Two long runs, to be timed: speed WORD, where WORD is fib or sum, in Gram, or old-fib or old-sum, in Old.
#![tactic(auto)]

use anyhow::anyhow;
use arithmetic::Arithmetic;
use engine::{Held, Run};
use gram::Gram;
use machine::{Return, Status};
use old::Old;
use reading::ReadingFault;
use std::env;

// `let fib(n) = ifp n - 1 then fib(n - 1) + fib(n - 2) else 1 in fib(30)`
const FIB: [u32; 21] = [
    0x90000015, 0x0000001E, 0x60010005, 0x70000000, 0xA0000001, 0x10000000, 0x00000001, 0x20000001,
    0x40000013, 0x10000000, 0x00000001, 0x20000001, 0x60010005, 0x10000000, 0x00000002, 0x20000001,
    0x60010005, 0x20000000, 0x50000014, 0x00000001, 0x70000000,
];

// Ones added up to 10,000,000, by words that jump back.
const SUM: [u32; 12] = [
    0x9000000C, 0x00000000, 0x10000000, 0x00000001, 0x20000000, 0x30000000, 0x00989680, 0x10000000,
    0x20000001, 0x4000000B, 0x50000002, 0x70000000,
];

fn steps<N: Arithmetic>(image: &[u32], stack: &mut [N]) -> Option<(Status, u64)> {
    let held: Held = [Err(ReadingFault::NotFitted); 64];
    let mut returns = [Return { base: 0, next: 0 }; 128];
    let mut run = Run::begin(image, 4_000_000_000)?;
    run.advance(image, &held, stack, &mut returns, 4_000_000_000)
}

fn timed(rt: &HostRuntime) -> anyhow::Result<()> {
    let mut gram = [Gram { grams: 0 }; 4128];
    let mut old = [Old { grams: 0 }; 4128];
    let mut args = env::args(rt)?;
    let _program = args.next();
    let Some(word) = args.next() else {
        return Err(anyhow!("one word: fib, sum, old-fib or old-sum"));
    };
    let answer = match word.as_str() {
        "fib" => steps(&FIB, &mut gram),
        "sum" => steps(&SUM, &mut gram),
        "old-fib" => steps(&FIB, &mut old),
        "old-sum" => steps(&SUM, &mut old),
        _ => None,
    };
    match answer {
        Some((Status::Ended(grams), used)) => println!(rt; "{grams} g in {used} steps")?,
        _ => println!(rt; "no value")?,
    }
    Ok(())
}

fn main(rt: HostRuntime) -> anyhow::Result<()> {
    timed(&rt)
}
