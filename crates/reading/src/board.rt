// The board: readings from the records that the load-cell bus keeps.
ghost use Rattle.std.specs.Prelude.{◌≡◌, ◌-◌, slice_set};
ghost use Rattle.reading.specs.Answers.{grams_of};
ghost use Rattle.reading.specs.OfBoard.{answers_of, leave_answer, put_answer, record_answer, records_of, weight_or_motion};
ghost use Rattle.reading.specs.Settings.{Changes, after};
ghost use Rattle.reading.specs.Laws.{board_lawful};

use crate::answer::{at_channel, held_to_limit, place_of};
use crate::fault::ReadingFault;
use crate::refusal::SettingRefusal;
use crate::source::ReadingSource;
use weight::Weight;

// What the bus last wrote for one channel. It writes grams for a load that moves too, and put judges them whatever the
// mark, so the mark stands beside them.
#[derive(Clone, Copy, PartialEq, Eq, Debug)]
pub struct Record {
    pub grams: i32,
    pub resting: bool,
}

impl Record {
    // A load that moves has no weight to be held to the limit, so rest is asked first.
    fn answer(self) -> Result<Weight, ReadingFault>
        ensures { grams_of result ≡ record_answer self }
    {
        if self.resting {
            held_to_limit(self.grams)
        } else {
            Err(ReadingFault::NotAtRest)
        }
    }
}

// The record of channel k stands at index k - 1, and only the first 64 count.
#[derive(PartialEq, Eq, Debug, Drop)]
pub struct Board {
    records: Vec<Record>,
}

impl Board {
    pub fn new(records: Vec<Record>) -> Board
        ensures { records_of result ≡ records.items }
    {
        Board { records }
    }

    // Writes one record, whose weight is to be within the limit whatever its mark.
    pub fn put(&mut self, channel: u32, given: Record) -> Result<(), SettingRefusal>
        ensures answer { result ≡ put_answer (records_of self.old) channel given }
        ensures records { records_of self.new ≡ after result (records_of self.old) (slice_set (records_of self.old) (channel - 1) given) }
        ensures meaning { Changes (answers_of self.old) (answers_of self.new) channel (weight_or_motion given) result }
    {
        at_channel(&self.records, channel).ok_or(SettingRefusal::NoChannel)?;
        Weight::new(given.grams).ok_or(SettingRefusal::BadWeight)?;
        self.leave(channel, given)
    }

    // Writes one record as the bus does, which tests no weight.
    pub fn leave(&mut self, channel: u32, given: Record) -> Result<(), SettingRefusal>
        ensures answer { result ≡ leave_answer (records_of self.old) channel }
        ensures records { records_of self.new ≡ after result (records_of self.old) (slice_set (records_of self.old) (channel - 1) given) }
        ensures meaning { Changes (answers_of self.old) (answers_of self.new) channel (record_answer given) result }
    {
        let place = place_of(channel).ok_or(SettingRefusal::NoChannel)?;
        let Some(record) = self.records.get_mut(place) else {
            return Err(SettingRefusal::NoChannel);
        };
        *record = given;
        Ok(())
    }
}

impl ReadingSource for Board {
    ghost answers = { answers_of };

    ghost lawful = { λ b. board_lawful (records_of b) };

    fn ask(&self, channel: u32) -> Result<Weight, ReadingFault> {
        let record = at_channel(&self.records, channel).ok_or(ReadingFault::NotFitted)?;
        record.answer()
    }
}
