// A deck: a floor of squares with carriers on it, each of which can be steered, and which all move at once.
//
// For: the floor's calls, which are proved over any deck. Promises: what steer and go answer and leave, in every
// case, stands on the trait; specs/Decks.antt is the page to read. Rests on: grid.
#![tactic(auto)]

pub mod drive;
pub mod fault;
pub mod settled;
pub mod turned;

ghost use Rattle.std.specs.Prelude.{◌≡◌, ℕ, ◌<◌, ◌≤◌, MatchOption};
ghost use Rattle.deck.specs.Decks.{DeckView, Sound, Steered, Went};

use crate::fault::DeckFault;
use grid::heading::Heading;
use grid::square::Square;

// Whoever keeps this meaning is a deck, refusals too.
pub trait Deck {
    // What the deck is to a reader.
    ghost view: { Self → DeckView };

    // In every deck the carriers stand on different squares of the floor.
    ghost sound: { (d : Self) → Sound (view d) };

    fn rows(&self) -> usize
        ensures { result ≡ (view self.now).rows };

    fn columns(&self) -> usize
        ensures { result ≡ (view self.now).columns };

    fn carriers(&self) -> usize
        ensures { result ≡ (view self.now).carriers };

    fn is_ready(&self) -> bool
        ensures { result ≡ (view self.now).ready };

    // Where a carrier stands; absent where there is no such carrier.
    fn place(&self, carrier: usize) -> Option<Square>
        ensures { MatchOption result ((view self.now).carriers ≤ carrier) (λ s. (carrier < (view self.now).carriers) × (s ≡ (view self.now).square carrier)) };

    // Where a carrier is headed; absent where there is no such carrier.
    fn heading(&self, carrier: usize) -> Option<Heading>
        ensures { MatchOption result ((view self.now).carriers ≤ carrier) (λ h. (carrier < (view self.now).carriers) × (h ≡ (view self.now).heading carrier)) };

    // Sets one heading, given by its number, and nothing else.
    // Kept as it is: the heading comes as a number, since the deck asks itself whether there is such a heading.
    fn steer(&mut self, carrier: usize, heading: u8) -> Result<(), DeckFault>
        ensures { Steered (view self.old) carrier heading result (view self.new) };

    // Moves every carrier by its heading, or nobody.
    fn go(&mut self) -> Result<(), DeckFault>
        ensures { Went (view self.old) result (view self.new) };
}
