// What refuses a piece: what is lent, and the state.
ghost use Rattle.std.specs.Prelude.{◌≡◌};
ghost use Rattle.rules.specs.Refusals.{number_in};
ghost use Rattle.stream.specs.Feeding.{feed_number};

use commands::Stream;
use hearing::possible;
use hop::Refusal;
use refusals::check_shape;
use wire::LONGEST;

#[tactic(auto, unfolding(crate::specs::Feeding::feed_number), using(rules::proofs::Chain::chain))]
pub fn check_feed(links: &[u32], rows: &[u32], s: Stream, room: usize) -> Result<(), Refusal>
    ensures { number_in result ≡ feed_number links.now rows.now s room }
{
    check_shape(links, rows, s.header)?;
    if room < LONGEST || !possible(s) {
        return Err(Refusal::Shape);
    }
    Ok(())
}
