// What the answers of every source share: where a channel stands in a list, and the fault beyond the limit.
ghost use Rattle.std.specs.Prelude.{◌≡◌};
ghost use Rattle.std.specs.Option.{option_copied};
ghost use Rattle.reading.specs.Answers.{at_channel, grams_of, held_to_limit, place_of};

use crate::fault::ReadingFault;
use weight::Weight;

// Where the channel stands in a list of what belongs to the channels, None for a number that is no channel.
pub(crate) fn place_of(channel: u32) -> Option<usize>
    ensures { result ≡ place_of channel }
{
    if (1..=64).contains(&channel) {
        Some(channel as usize - 1)
    } else {
        None
    }
}

// What stands there for the channel, if there is any.
pub(crate) fn at_channel<T>(items: &[T], channel: u32) -> Option<&T>
    ensures { option_copied result ≡ at_channel items.now channel }
{
    items.get(place_of(channel)?)
}

// The weight of so many grams, or the fault of one beyond the limit.
pub(crate) fn held_to_limit(grams: i32) -> Result<Weight, ReadingFault>
    ensures { grams_of result ≡ held_to_limit grams }
{
    Weight::new(grams).ok_or(ReadingFault::BeyondLimit)
}
