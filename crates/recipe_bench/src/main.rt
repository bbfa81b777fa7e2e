// The bench program: reads sessions, from files or from standard input, and prints their records.
#![tactic(auto)]

mod people;

use anyhow::anyhow;
use command::trimmed;
use people::explain;
use shelf::NotKept;
use sitting::{Reply, Session};
use std::error::Error;
use std::fs::File;
use std::io::{BufRead, BufReader, Write};
use std::process::ExitCode;
use std::str::from_utf8;
use std::{env, fmt, fs, io};

const HELP: &str = "\
bench FILE          prints the record of the session in FILE
bench FILE FILE ..  the same of several sessions, each after a line '# FILE'
bench               the same of the session on standard input
bench --help        prints this page

A session has one command a line: a name and its arguments, with blanks between. Blank lines and lines
whose first word begins with # are passed over. Each command gives one line of the record: the command as
written, then ': ', then the answer. A line that begins with two blanks adds to the answer above it.

command                         answer
station N                       new station N, or station N where it was made before; 64 at most
records N                       N records: the board is made anew, each record 0 g at rest; 10000 at most
put CHANNEL GRAMS rest          done, or refused: 61 no such channel, 62 beyond the limit
put CHANNEL GRAMS moving        the same of a load that moves
raw CHANNEL GRAMS rest          done, as the load-cell bus writes a record, or refused: 61
raw CHANNEL GRAMS moving        the same of a load that moves
tare CHANNEL GRAMS              done, or refused: 61 no such channel, 62 negative or beyond the limit
interval D                      done, or refused: 63 not 1, 2 or 5 times a power of ten, or over 50000
pile board                      done: readings come from the board itself
pile tare                       done: less the tares
pile step                       done: in steps of the interval
pile step-tare                  done: less the tares, then in steps (so at first)
pile tare-step                  done: in steps, then less the tares
weigh CHANNEL                   G g, or fault: 41 not fitted, 42 not at rest, 43 beyond the limit
total CHANNEL CHANNEL ..        G g, or the first fault: those of weigh, or 31 out of range
arithmetic gram                 done: totals in whole grams, 31 beyond 2147483647 (so at first)
arithmetic old                  done: totals in 32 bits, taken modulo 2^32
arithmetic fine                 done: totals in binary64, 31 beyond 2147483647
recipe NAME                     the lines up to a line 'end' are the recipe's text: accepted, W words, or
                                refused N at P, with the text's line, a mark and a sentence
load NAME FILE                  the same of the text in FILE
words NAME                      the words of an accepted recipe, 8 hexadecimal digits each
room IMAGE TABLE                done: the next compiles are lent so many words of image and work table,
                                at most 100000 each; 4096 and 2000 at first

A recipe is refused by 1 over 60000 bytes, 15 image under 4096 words or work table under 2000, 2 unknown
byte, 3 number over 268435455, 4 name over 16 bytes, 5 grammar, 6 nesting over 32, 7 over 32 functions,
8 over 8 parameters, 14 over 2000 constructs, 9 name declared twice, 10 unknown name, 11 number of
arguments, 13 channel outside 1 to 64, 12 frame over 32 values; P is the place, in bytes from 0.
A NAME has at most 32 bytes, and 100 names are kept; a refused recipe leaves its name as it was.

Channels are 1 to 64. A weight is within 268435455 g on either side; GRAMS may be negative.
A command that is not understood is answered 'not understood', with the reason, and changes nothing.
";

// Why a file gives no text.
#[derive(Debug, Drop)]
enum FileError {
    Name,
    Read(io::Error),
}

impl fmt::Display for FileError {
    fn fmt<W: fmt::Write>(&self, f: &mut fmt::Formatter<W>) -> fmt::Result {
        match self {
            FileError::Name => write!(f, "the file's name is no text"),
            FileError::Read(error) => write!(f, "{error}"),
        }
    }
}

impl Error for FileError {}

fn file_bytes(rt: &HostRuntime, file: &[u8]) -> Result<Vec<u8>, FileError> {
    let path = from_utf8(file).map_err(|_| FileError::Name)?;
    fs::read(rt, path).map_err(FileError::Read)
}

// One command of the record: the command as written, the answer, and the lines for people.
fn print(out: &mut impl Write, command: &[u8], reply: &Reply) -> io::Result<()> {
    out.write_all(command)?;
    writeln!(out, ": {reply}")?;
    if let Reply::NotKept(NotKept::Refused { refusal, text }) = reply {
        explain(out, *refusal, text)?;
    }
    Ok(())
}

// Prints what a line is answered; a file that is wanted is read and compiled first.
fn answer(
    rt: &HostRuntime,
    out: &mut impl Write,
    session: &mut Session,
    command: &[u8],
    reply: Reply,
) -> anyhow::Result<()> {
    let Reply::File { name, file } = reply else {
        return Ok(print(out, command, &reply)?);
    };
    match file_bytes(rt, file) {
        Ok(text) => Ok(print(out, command, &session.load(rt.alloc(), name, text)?)?),
        Err(error) => {
            // put together first, since the words of an error come in parts, and each would be a write of its own
            let reason = format!(in rt.alloc(); "{error}")?;
            out.write_all(command)?;
            Ok(writeln!(out, ": not understood: {reason}")?)
        }
    }
}

// The record of one session, line by line as the commands come. The lines of a recipe's text belong to one command.
// They are read into one room, so that a line no longer than those before it wants no memory to be read.
fn record(rt: &HostRuntime, mut input: impl BufRead + Drop) -> anyhow::Result<()> {
    let heap = rt.alloc();
    let mut session = Session::new(heap)?;
    let mut out = rt.stdout();
    let mut command: Vec<u8> = Vec::new(heap);
    let mut text = Vec::new(heap);
    for _ in 0..u64::MAX {
        text.clear();
        if input.read_until(b'\n', &mut text)? == 0 {
            break;
        }
        let line = text.strip_suffix(b"\n").unwrap_or(&text);
        if !session.has_draft() {
            command.clear();
            // in the record a line that begins with blanks is one for people
            command.extend_from_slice(trimmed(line))?;
        }
        if let Some(reply) = session.take(heap, line)? {
            answer(rt, &mut out, &mut session, &command, reply)?;
        }
    }
    if session.has_draft() {
        out.write_all(&command)?;
        writeln!(
            out,
            ": not understood: the session ends before the text's end"
        )?;
    }
    out.flush()?;
    Ok(())
}

// The record of the session in a file. An error names the file.
fn record_of(rt: &HostRuntime, name: &str) -> anyhow::Result<()> {
    let file = File::open(rt, name).map_err(|error| anyhow!("{name}: {error}"))?;
    record(rt, BufReader::new(rt.alloc(), file)?).map_err(|error| anyhow!("{name}: {error}"))
}

// The record of one of several sessions, after a line with the file's name.
fn named_record(rt: &HostRuntime, name: &str) -> anyhow::Result<()> {
    println!(rt; "# {name}")?;
    record_of(rt, name)
}

fn run(rt: &HostRuntime) -> anyhow::Result<()> {
    let mut args = env::args(rt)?;
    let _program = args.next();
    let Some(first) = args.next() else {
        return record(rt, BufReader::new(rt.alloc(), rt.stdin())?);
    };
    if first.as_str() == "--help" {
        rt.print(HELP)?;
        return Ok(());
    }
    let Some(second) = args.next() else {
        return record_of(rt, first.as_str());
    };
    named_record(rt, first.as_str())?;
    named_record(rt, second.as_str())?;
    for name in args {
        named_record(rt, name.as_str())?;
    }
    Ok(())
}

// An error is told once, on standard error, and the status is 1.
fn main(rt: HostRuntime) -> ExitCode {
    match run(&rt) {
        Ok(()) => ExitCode::SUCCESS,
        Err(error) => {
            let _ = eprintln!(rt; "bench: {error}");
            ExitCode::FAILURE
        }
    }
}
