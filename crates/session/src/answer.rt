// What a command of a session is answered. The first words of an answer are fixed, so that other programs can read a record.
ghost use Rattle.std.specs.Prelude.{◌≡◌};
ghost use Rattle.session.specs.Answers.{answer_text, set_answer};

use command::Misreading;
use reading::{AtChannel, SettingRefusal};
use std::fmt;
use weighing::{TotalFault, WeighingFault};

// Refusals and faults stand among the answers: each is one line of the record, and is printed as the others are.
#[derive(Clone, Copy, PartialEq, Eq, Debug)]
pub enum Answer {
    NewStation(u32),
    Station(u32),
    Records(u32),
    Done,
    Refused(SettingRefusal),
    Grams(i32),
    Fault(WeighingFault),
    FaultAt(TotalFault),
    // More than the bench keeps: the answer names the limit.
    TooManyStations,
    TooManyRecords,
    NotUnderstood(Misreading),
}

// The answer to a setting.
impl From<Result<(), SettingRefusal>> for Answer {
    ghost from_gives = { λ setting answer. answer ≡ set_answer setting };

    fn from(setting: Result<(), SettingRefusal>) -> Answer {
        match setting {
            Ok(()) => Answer::Done,
            Err(refusal) => Answer::Refused(refusal),
        }
    }
}

impl fmt::Display for Answer {
    ghost output = { answer_text };

    fn fmt<W: fmt::Write>(&self, f: &mut fmt::Formatter<W>) -> fmt::Result {
        match self {
            Answer::NewStation(number) => write!(f, "new station {number}"),
            Answer::Station(number) => write!(f, "station {number}"),
            Answer::Records(count) => write!(f, "{count} records"),
            Answer::Done => write!(f, "done"),
            Answer::Refused(refusal) => write!(f, "refused {} {refusal}", refusal.number()),
            Answer::Grams(grams) => write!(f, "{grams} g"),
            Answer::Fault(fault) => write!(f, "fault {} {fault}", fault.number()),
            Answer::FaultAt(AtChannel { channel, fault }) => write!(
                f,
                "fault {} {fault}, channel {channel}",
                fault.number()
            ),
            Answer::TooManyStations => write!(f, "not understood: at most 64 stations are made"),
            Answer::TooManyRecords => write!(
                f,
                "not understood: a board has at most 10000 records"
            ),
            Answer::NotUnderstood(misreading) => write!(f, "{misreading}"),
        }
    }
}
