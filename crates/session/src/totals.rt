// A total in the arithmetic that the session has chosen.
ghost use Rattle.std.specs.Prelude.{◌≡◌};
ghost use Rattle.session.specs.Totals.{shown_total, total_in};

use arithmetic::Arithmetic;
use command::Counting;
use fine::Fine;
use gram::Gram;
use old::Old;
use reading::ReadingSource;
use weighing::{TotalFault, total};

// The total of one arithmetic, as it is shown.
fn total_shown<V: Arithmetic, S: ReadingSource>(
    source: &S,
    channels: &[u32],
) -> Result<i32, TotalFault>
    ensures { result ≡ shown_total V.Arithmetic.rules (S.ReadingSource.answers source.now) channels.now }
{
    total(source, channels).map(|sum: V| sum.shown())
}

// The weights of the channels added from the left in the chosen arithmetic, in whole grams as shown.
pub fn total_by<S: ReadingSource>(
    counting: Counting,
    source: &S,
    channels: &[u32],
) -> Result<i32, TotalFault>
    ensures { result ≡ total_in counting (S.ReadingSource.answers source.now) channels.now }
{
    match counting {
        Counting::Gram => total_shown::<Gram, S>(source, channels),
        Counting::Old => total_shown::<Old, S>(source, channels),
        Counting::Fine => total_shown::<Fine, S>(source, channels),
    }
}
