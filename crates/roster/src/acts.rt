// What a roster does.
ghost use Rattle.std.specs.Prelude.{◌≡◌, true};
ghost use Rattle.roster.specs.Rosters.{roster_view, roster_sound};

use crate::Roster;
use deck::Deck;
use deck::fault::DeckFault;
use grid::heading::Heading;
use grid::square::Square;

impl Deck for Roster {
    ghost view = { roster_view };

    ghost sound = { roster_sound };

    fn rows(&self) -> usize {
        self.carriers.rows()
    }

    fn columns(&self) -> usize {
        self.carriers.columns()
    }

    fn carriers(&self) -> usize {
        self.carriers.carriers()
    }

    fn is_ready(&self) -> bool
        ensures shown { result ≡ (roster_view self.now).ready }
        ensures always { result ≡ true }
    {
        self.carriers.is_ready()
    }

    fn place(&self, carrier: usize) -> Option<Square> {
        self.carriers.place(carrier)
    }

    fn heading(&self, carrier: usize) -> Option<Heading> {
        self.carriers.heading(carrier)
    }

    fn steer(&mut self, carrier: usize, heading: u8) -> Result<(), DeckFault> {
        self.carriers.steer(carrier, heading)
    }

    fn go(&mut self) -> Result<(), DeckFault> {
        self.carriers.go()
    }
}
