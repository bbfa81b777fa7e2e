// How long a compile takes. `compile_speed FILE` compiles the recipe in FILE and says what came of it; `compile_speed FILE N` compiles
// it N times and adds the microseconds of one compile.
#![tactic(auto)]

use anyhow::anyhow;
use compiler::{IMAGE_WORDS, TABLE_WORDS, compile};
use std::time::Instant;
use std::{env, fs};

fn run(rt: &HostRuntime) -> anyhow::Result<()> {
    let heap = rt.alloc();
    let mut args = env::args(rt)?;
    let _program = args.next();
    let Some(name) = args.next() else {
        return Err(anyhow!("a recipe's file, and how often it is compiled"));
    };
    let text = fs::read(rt, name.as_str())?;
    let bytes = text.len();
    let times = match args.next() {
        Some(word) => word.as_str().parse::<u32>()?,
        None => 0,
    };
    let mut image = vec![in heap; 0u32; IMAGE_WORDS]?;
    let mut table = vec![in heap; 0u32; TABLE_WORDS]?;
    match compile(&text, &mut image, &mut table) {
        Ok(words) => println!(rt; "{bytes} bytes: accepted, {words} words")?,
        Err(_) => println!(rt; "{bytes} bytes: refused")?,
    }
    if times > 0 {
        let start = Instant::now(rt)?;
        for _ in 0..times {
            let _ = compile(&text, &mut image, &mut table);
        }
        let each = start.elapsed(rt)?.as_micros() / u128::from(times);
        println!(rt; "{each} microseconds a compile")?;
    }
    Ok(())
}

fn main(rt: HostRuntime) -> anyhow::Result<()> {
    run(&rt)
}
