// The sum of the weights of a list of channels.
ghost use Rattle.std.specs.Prelude.{◌≡◌, pos};
ghost use Rattle.weighing.specs.Totals.{added, added_at, totalled};

use crate::fault::{TotalFault, WeighingFault};
use arithmetic::Arithmetic;
use reading::ReadingSource;
use weight::Weight;

// The sum with the weight of one more channel.
fn add<V: Arithmetic, S: ReadingSource>(
    sum: V,
    source: &S,
    channel: u32,
) -> Result<V, WeighingFault>
    ensures { result ≡ added V.Arithmetic.rules (S.ReadingSource.answers source.now channel) sum }
{
    let weight = source.ask(channel)?;
    Ok(sum.plus(V::whole(weight))?)
}

// The same, and a fault tells its channel.
fn add_at<V: Arithmetic, S: ReadingSource>(
    sum: V,
    source: &S,
    channel: u32,
) -> Result<V, TotalFault>
    ensures { result ≡ added_at V.Arithmetic.rules (S.ReadingSource.answers source.now) channel sum }
{
    add(sum, source, channel).map_err(|fault| TotalFault { channel, fault })
}

// The weights of the channels added from the left onto whole of 0; the first fault ends it.
#[tactic(auto, using(crate::proofs::Sums::totalled_drop, crate::proofs::Sums::totalled_end))]
pub fn total<V: Arithmetic, S: ReadingSource>(source: &S, channels: &[u32]) -> Result<V, TotalFault>
    ensures { result ≡ totalled V.Arithmetic.rules (S.ReadingSource.answers source.now) (V.Arithmetic.rules.whole (pos 0)) channels.now }
{
    let mut sum = V::whole(Weight::zero());
    for channel in channels {
        sum = add_at(sum, source, *channel)?;
    }
    Ok(sum)
}
