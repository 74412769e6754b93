// Steering every carrier of any deck at once.
ghost use Rattle.std.specs.Prelude.{◌≡◌, slice_index_or};
ghost use Rattle.grid.specs.declared.heading.Heading.TheVariants.{Stay};
ghost use Rattle.deck.specs.Decks.{Unchanged};
ghost use Rattle.deck.specs.Driven.{headed, Driven};

use crate::Deck;
use crate::fault::DeckFault;
use grid::heading::Heading;

// Steers every carrier, those past the end of the list to stay.
fn steer_all<D: Deck>(deck: &mut D, headings: &[Heading])
    ensures { Unchanged (headed (D.Deck.view deck.old) headings.now) (D.Deck.view deck.new) }
{
    // Kept as it is: a deck is steered by a carrier's number, and there may be more carriers than headings.
    for carrier in 0..(*deck).carriers() {
        let heading = heading_of(headings, carrier);
        // There is such a carrier and such a heading.
        let _ = deck.steer(carrier, heading.number());
    }
}

fn heading_of(headings: &[Heading], carrier: usize) -> Heading
    ensures { result ≡ slice_index_or headings.now carrier Stay }
{
    headings.get(carrier).copied().unwrap_or(Heading::Stay)
}

// Steers every carrier by the list and goes; refuses a list longer than there are carriers.
pub fn drive<D: Deck>(deck: &mut D, headings: &[Heading]) -> Result<(), DeckFault>
    ensures { Driven (D.Deck.view deck.old) headings.now result (D.Deck.view deck.new) }
{
    if headings.len() > (*deck).carriers() {
        return Err(DeckFault::NoCarrier);
    }
    steer_all(deck, headings);
    deck.go()
}
