// The bench program: reads a session, from a file or from standard input, and prints its record.
#![tactic(auto)]

use anyhow::anyhow;
use command::trimmed;
use session::Bench;
use std::alloc::Global;
use std::env;
use std::fs::File;
use std::io::{BufRead, BufReader, Write};
use std::process::ExitCode;

const HELP: &str = "\
bench FILE      prints the record of the session in FILE
bench           the same of the session on standard input
bench --help    prints this page

A session has one command a line: a name and its arguments, with blanks between. Blank lines and lines
whose first word begins with # are passed over. Each command gives one line of the record: the command as
written, then ': ', then the answer.

command                         answer
station N                       new station N, or station N where it was made before; 64 at most
records N                       N records: the board is made anew, each record 0 g at rest; 10000 at most
put CHANNEL GRAMS rest          done, or refused: 61 no such channel, 62 beyond the limit
put CHANNEL GRAMS moving        the same of a load that moves
raw CHANNEL GRAMS rest          done, as the load-cell bus writes a record, or refused: 61
raw CHANNEL GRAMS moving        the same of a load that moves
tare CHANNEL GRAMS              done, or refused: 61 no such channel, 62 negative or beyond the limit
interval D                      done, or refused: 63 not 1, 2 or 5 times a power of ten, or over 50000
pile board                      done: readings come from the board itself
pile tare                       done: less the tares
pile step                       done: in steps of the interval
pile step-tare                  done: less the tares, then in steps (so at first)
pile tare-step                  done: in steps, then less the tares
weigh CHANNEL                   G g, or fault: 41 not fitted, 42 not at rest, 43 beyond the limit
total CHANNEL CHANNEL ..        G g, or the first fault: those of weigh, or 31 out of range
arithmetic gram                 done: totals in whole grams, 31 beyond 2147483647 (so at first)
arithmetic old                  done: totals in 32 bits, taken modulo 2^32
arithmetic fine                 done: totals in binary64, 31 beyond 2147483647

Channels are 1 to 64. A weight is within 268435455 g on either side; GRAMS may be negative.
A command that is not understood is answered 'not understood', with the reason, and changes nothing.
";

// The record of one session, line by line as the commands come.
// They are read into one room, so that a line no longer than those before it wants no memory.
fn record(rt: &HostRuntime, heap: Global, mut input: impl BufRead + Drop) -> anyhow::Result<()> {
    let mut bench = Bench::new(heap)?;
    let mut out = rt.stdout();
    let mut text = Vec::new(heap);
    for _ in 0..u64::MAX {
        text.clear();
        if input.read_until(b'\n', &mut text)? == 0 {
            break;
        }
        // in the record a line that begins with blanks is one for people
        let line = trimmed(&text);
        if let Some(answer) = bench.take(heap, line)? {
            out.write_all(line)?;
            writeln!(out, ": {answer}")?;
        }
    }
    out.flush()?;
    Ok(())
}

// The record of the session in a file. An error names the file.
fn record_of(rt: &HostRuntime, heap: Global, name: &str) -> anyhow::Result<()> {
    let file = File::open(rt, name).map_err(|error| anyhow!("{name}: {error}"))?;
    record(rt, heap, BufReader::new(heap, file)?).map_err(|error| anyhow!("{name}: {error}"))
}

fn run(rt: &HostRuntime) -> anyhow::Result<()> {
    let heap = rt.alloc();
    let mut args = env::args(rt)?;
    let _program = args.next();
    let Some(word) = args.next() else {
        return record(rt, heap, BufReader::new(heap, rt.stdin())?);
    };
    if args.next().is_some() {
        return Err(anyhow!("one session at a time; --help lists the commands"));
    }
    if word.as_str() == "--help" {
        rt.print(HELP)?;
        return Ok(());
    }
    record_of(rt, heap, word.as_str())
}

// An error is told once, on standard error, and the status is 1.
fn main(rt: HostRuntime) -> ExitCode {
    match run(&rt) {
        Ok(()) => ExitCode::SUCCESS,
        Err(error) => {
            let _ = eprintln!(rt; "bench: {error}");
            ExitCode::FAILURE
        }
    }
}
