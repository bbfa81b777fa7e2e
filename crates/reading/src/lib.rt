// Readings of a scale: what each channel answers, from the bus records up through tares and display steps.
#![tactic(auto)]

mod answer;
mod at_channel;
mod board;
mod fault;
mod interval;
mod layer;
mod refusal;
mod source;
mod step;
mod tare;
mod worked;

pub use at_channel::AtChannel;
pub use board::{Board, Record};
pub use fault::ReadingFault;
pub use interval::Interval;
pub use layer::{Adjustment, Layer};
pub use refusal::SettingRefusal;
pub use source::ReadingSource;
pub use step::Step;
pub use tare::{Tare, Tares};
