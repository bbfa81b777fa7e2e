// The arguments of each command.
ghost use Rattle.std.specs.Prelude.{◌≡◌, true, vec_items};
ghost use Rattle.command.specs.Left.{left};
ghost use Rattle.command.specs.Understood.{Gives, arguments, asked, channels, load, lists, refused};

use crate::arguments::Arguments;
use crate::misread::Misread;
use crate::types::{Command, Load, ParseError, Verb, Wanted};
use std::alloc::Global;

// A channel, grams and a mark, and no word more.
fn load(rest: &mut Arguments<Verb>) -> Result<Load, Misread<Verb, Wanted>>
    ensures { result ≡ load rest.old.verb (left rest.old.words) }
{
    let channel = rest.next(Wanted::Channel)?;
    let grams = rest.next(Wanted::Grams)?;
    let at_rest = rest.sole(Wanted::Mark)?;
    Ok(Load {
        channel,
        grams,
        at_rest,
    })
}

// One channel or more.
fn channels(heap: Global, rest: &mut Arguments<Verb>) -> Result<Vec<u32>, ParseError>
    ensures { Gives vec_items (refused (channels rest.old.verb (left rest.old.words))) true result }
{
    let mut channels = vec![in heap; rest.next(Wanted::Channel)?]?;
    while !rest.words.is_done() {
        channels.push(rest.next(Wanted::Channel)?)?;
    }
    Ok(channels)
}

pub(crate) fn command_of(heap: Global, rest: &mut Arguments<Verb>) -> Result<Command, ParseError>
    ensures { Gives asked (refused (arguments rest.old.verb (left rest.old.words))) (lists rest.old.verb) result }
{
    match rest.verb {
        Verb::Station => Ok(Command::Station(rest.sole(Wanted::StationNumber)?)),
        Verb::Records => Ok(Command::Records(rest.sole(Wanted::Count)?)),
        Verb::Put => Ok(Command::Put(load(rest)?)),
        Verb::Raw => Ok(Command::Raw(load(rest)?)),
        Verb::Tare => Ok(Command::Tare {
            channel: rest.next(Wanted::Channel)?,
            grams: rest.sole(Wanted::Grams)?,
        }),
        Verb::Interval => Ok(Command::Interval(rest.sole(Wanted::Interval)?)),
        Verb::Pile => Ok(Command::Pile(rest.sole(Wanted::Pile)?)),
        Verb::Weigh => Ok(Command::Weigh(rest.sole(Wanted::Channel)?)),
        Verb::Total => channels(heap, rest).map(Command::Total),
        Verb::Arithmetic => Ok(Command::Arithmetic(rest.sole(Wanted::Arithmetic)?)),
    }
}
