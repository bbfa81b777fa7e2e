// The names of the commands, and the words that stand for a mark, a pile and an arithmetic.
ghost use Rattle.command.specs.Names.{verb_of, mark_in, pile_in, counting_in};

use crate::arguments::FromWord;
use crate::types::{Counting, Pile, Verb};

impl FromWord for Verb {
    ghost read = { verb_of };

    fn from_word(word: &[u8]) -> Option<Verb> {
        match word {
            b"station" => Some(Verb::Station),
            b"records" => Some(Verb::Records),
            b"put" => Some(Verb::Put),
            b"raw" => Some(Verb::Raw),
            b"tare" => Some(Verb::Tare),
            b"interval" => Some(Verb::Interval),
            b"pile" => Some(Verb::Pile),
            b"weigh" => Some(Verb::Weigh),
            b"total" => Some(Verb::Total),
            b"arithmetic" => Some(Verb::Arithmetic),
            _ => None,
        }
    }
}

// The mark of a load: whether the scale is at rest.
impl FromWord for bool {
    ghost read = { mark_in };

    fn from_word(word: &[u8]) -> Option<bool> {
        match word {
            b"rest" => Some(true),
            b"moving" => Some(false),
            _ => None,
        }
    }
}

impl FromWord for Pile {
    ghost read = { pile_in };

    fn from_word(word: &[u8]) -> Option<Pile> {
        match word {
            b"board" => Some(Pile::Board),
            b"tare" => Some(Pile::Tare),
            b"step" => Some(Pile::Step),
            b"step-tare" => Some(Pile::StepTare),
            b"tare-step" => Some(Pile::TareStep),
            _ => None,
        }
    }
}

impl FromWord for Counting {
    ghost read = { counting_in };

    fn from_word(word: &[u8]) -> Option<Counting> {
        match word {
            b"gram" => Some(Counting::Gram),
            b"old" => Some(Counting::Old),
            b"fine" => Some(Counting::Fine),
            _ => None,
        }
    }
}
