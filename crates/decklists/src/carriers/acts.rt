// What carriers do: they are a deck that is always ready.
ghost use Rattle.std.specs.Prelude.{OnOk};
ghost use Rattle.deck.specs.Decks.{Halted, Went};
ghost use Rattle.decklists.specs.Carriers.{carriers_view, carriers_sound};
ghost use Rattle.decklists.specs.Notes.{PlacesNoted};

use crate::carriers::Carriers;
use crate::carriers::moves::{move_all, rest_all};
use deck::Deck;
use deck::fault::DeckFault;
use grid::heading::Heading;
use grid::square::Square;

impl Carriers {
    // Sets every heading to stay, and nothing else.
    pub fn halt(&mut self)
        ensures { Halted (carriers_view self.old) (carriers_view self.new) }
    {
        rest_all(&mut self.list);
    }
}

impl Deck for Carriers {
    ghost view = { carriers_view };

    ghost sound = { carriers_sound };

    fn rows(&self) -> usize {
        self.extent.rows
    }

    fn columns(&self) -> usize {
        self.extent.columns
    }

    fn carriers(&self) -> usize {
        self.list.len()
    }

    fn is_ready(&self) -> bool {
        true
    }

    fn place(&self, carrier: usize) -> Option<Square> {
        self.list.get(carrier).map(|carrier| carrier.square)
    }

    fn heading(&self, carrier: usize) -> Option<Heading> {
        self.list.get(carrier).map(|carrier| carrier.heading)
    }

    fn steer(&mut self, carrier: usize, heading: u8) -> Result<(), DeckFault> {
        let carrier = self.list.get_mut(carrier).ok_or(DeckFault::NoCarrier)?;
        carrier.heading = Heading::try_from(heading)?;
        Ok(())
    }

    // After a move the notes say who stands on each square.
    fn go(&mut self) -> Result<(), DeckFault>
        ensures went { Went (carriers_view self.old) result (carriers_view self.new) }
        ensures noted { OnOk result (PlacesNoted (carriers_view self.new) self.new.notes.items) }
    {
        if let Err(fault) = self.allow() {
            self.halt();
            return Err(fault);
        }
        move_all(self.extent, &mut self.list);
        Ok(())
    }
}
