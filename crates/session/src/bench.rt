// The bench: its state, and what each command makes of it.
ghost use Rattle.std.specs.Prelude.{◌≡◌, replicate, IfOk};
ghost use Rattle.command.specs.Understood as asked;
ghost use Rattle.command.specs.Understood.{asked as meant_by};
ghost use Rattle.session.specs.Obeyed.{Does, Obeys, Takes, at_first, empty_record, load as record_of, obeyed, state_of};

use crate::answer::Answer;
use crate::hoppers::Hoppers;
use crate::totals::total_by;
use command::{Command, Counting, Load, ParseError, Pile, parse};
use reading::{Board, ReadingSource, Record, Step, Tare};
use std::alloc::{AllocError, Global};
use weighing::WeighingFault;

const MOST_RECORDS: u32 = 10_000;

const MOST_STATIONS: usize = 64;

// A record of 0 g at rest.
const EMPTY: Record = Record {
    grams: 0,
    resting: true,
};

// The readings' side of a session. Stations are known by their numbers.
#[derive(Drop)]
pub struct Bench {
    hoppers: Hoppers,
    counting: Counting,
    stations: Vec<u32>,
}

// The record that a load gives.
fn record(load: Load) -> Record
    ensures { result ≡ record_of load.grams load.at_rest }
{
    Record {
        grams: load.grams,
        resting: load.at_rest,
    }
}

fn empty_board(heap: Global, count: u32) -> Result<Board, AllocError>
    ensures { IfOk result (λ b. b.records.items ≡ replicate count empty_record) }
{
    let records = vec![in heap; EMPTY; count as usize]?;
    Ok(Board::new(records))
}

impl Bench {
    // 64 empty records at rest, no tares, an interval of 1 g, Step over Tare, Gram, and station 1.
    pub fn new(heap: Global) -> Result<Bench, AllocError>
        ensures { IfOk result (λ b. state_of b ≡ at_first) }
    {
        let board = empty_board(heap, 64)?;
        let stations = vec![in heap; 1]?;
        let hoppers = Hoppers {
            layers: Step::over(Tare::over(board)),
            pile: Pile::StepTare,
        };
        Ok(Bench {
            hoppers,
            counting: Counting::Gram,
            stations,
        })
    }

    fn station(&mut self, number: u32) -> Result<Answer, AllocError>
        ensures { Obeys (asked.station number) (state_of self.old) result (state_of self.new) }
    {
        if self.stations.contains(&number) {
            return Ok(Answer::Station(number));
        }
        if self.stations.len() >= MOST_STATIONS {
            return Ok(Answer::TooManyStations);
        }
        self.stations.push(number)?;
        Ok(Answer::NewStation(number))
    }

    fn renew(&mut self, heap: Global, count: u32) -> Result<Answer, AllocError>
        ensures { Obeys (asked.records count) (state_of self.old) result (state_of self.new) }
    {
        if count > MOST_RECORDS {
            return Ok(Answer::TooManyRecords);
        }
        self.hoppers.layers.below.below = empty_board(heap, count)?;
        Ok(Answer::Records(count))
    }

    fn weigh(&self, channel: u32) -> Answer
        ensures { result ≡ obeyed (asked.weigh channel) (state_of self.now) }
    {
        match self.hoppers.ask(channel) {
            Ok(weight) => Answer::Grams(weight.grams()),
            Err(fault) => Answer::Fault(WeighingFault::OfReading(fault)),
        }
    }

    fn total(&self, channels: &[u32]) -> Answer
        ensures { result ≡ obeyed (asked.total channels.now) (state_of self.now) }
    {
        match total_by(self.counting, &self.hoppers, channels) {
            Ok(grams) => Answer::Grams(grams),
            Err(fault) => Answer::FaultAt(fault),
        }
    }

    // Carries out one command. Where memory runs out, nothing has changed.
    pub fn obey(&mut self, heap: Global, command: Command) -> Result<Answer, AllocError>
        ensures { Obeys (meant_by command) (state_of self.old) result (state_of self.new) }
    {
        let layers = &mut self.hoppers.layers;
        match command {
            Command::Station(number) => self.station(number),
            Command::Records(count) => self.renew(heap, count),
            Command::Put(load) => Ok(layers.below.below.put(load.channel, record(load)).into()),
            Command::Raw(load) => Ok(layers.below.below.leave(load.channel, record(load)).into()),
            Command::Tare { channel, grams } => Ok(layers.below.set(channel, grams).into()),
            Command::Interval(d) => Ok(layers.set(d).into()),
            Command::Pile(pile) => {
                self.hoppers.pile = pile;
                Ok(Answer::Done)
            }
            Command::Weigh(channel) => Ok(self.weigh(channel)),
            Command::Total(channels) => Ok(self.total(&channels)),
            Command::Arithmetic(counting) => {
                self.counting = counting;
                Ok(Answer::Done)
            }
        }
    }

    // One line of a session: None where it is passed over. A line that is not understood changes nothing.
    pub fn take(&mut self, heap: Global, line: &[u8]) -> Result<Option<Answer>, AllocError>
        ensures { Takes line.now (state_of self.old) result (state_of self.new) }
    {
        match parse(heap, line) {
            Ok(None) => Ok(None),
            Ok(Some(command)) => self.obey(heap, command).map(Some),
            Err(ParseError::Misread(misreading)) => Ok(Some(Answer::NotUnderstood(misreading))),
            Err(ParseError::Memory(refused)) => Err(refused),
        }
    }
}
