// What a board does. Each call of the deck leaves the contact as it is.
ghost use Rattle.std.specs.Prelude.{◌≡◌, ℕ, ◌<◌, true, false, MatchOption, ◌≢◌};
ghost use Rattle.deck.specs.Decks.{Steered, Went};
ghost use Rattle.board.specs.Boards.{board_view, board_sound, with_ready};

use crate::Board;
use deck::Deck;
use deck::fault::DeckFault;
use grid::heading::Heading;
use grid::square::Square;

impl Board {
    // Opens the contact, and nothing else: the board is not ready.
    pub fn open_contact(&mut self)
        ensures { board_view self.new ≡ with_ready (board_view self.old) false }
    {
        self.closed = false;
    }

    // Closes the contact, and nothing else: the board is ready.
    pub fn close_contact(&mut self)
        ensures { board_view self.new ≡ with_ready (board_view self.old) true }
    {
        self.closed = true;
    }

    // Which carrier stands on a square; absent where there is none, or no such square.
    pub fn standing_on(&self, square: Square) -> Option<usize>
        ensures { MatchOption result ((k : ℕ) → k < (board_view self.now).carriers → (board_view self.now).square k ≢ square) (λ k. (k < (board_view self.now).carriers) × ((board_view self.now).square k ≡ square)) }
    {
        let number = self.carriers.number(square)?;
        self.standing[number]
    }
}

impl Deck for Board {
    ghost view = { board_view };

    ghost sound = { board_sound };

    fn rows(&self) -> usize {
        self.carriers.rows()
    }

    fn columns(&self) -> usize {
        self.carriers.columns()
    }

    fn carriers(&self) -> usize {
        self.carriers.carriers()
    }

    fn is_ready(&self) -> bool {
        self.closed
    }

    fn place(&self, carrier: usize) -> Option<Square> {
        self.carriers.place(carrier)
    }

    fn heading(&self, carrier: usize) -> Option<Heading> {
        self.carriers.heading(carrier)
    }

    fn steer(&mut self, carrier: usize, heading: u8) -> Result<(), DeckFault>
        ensures steered { Steered (board_view self.old) carrier heading result (board_view self.new) }
        ensures closed_unchanged { self.new.closed ≡ self.old.closed }
    {
        self.carriers.steer(carrier, heading)
    }

    fn go(&mut self) -> Result<(), DeckFault>
        ensures went { Went (board_view self.old) result (board_view self.new) }
        ensures closed_unchanged { self.new.closed ≡ self.old.closed }
    {
        if !self.closed {
            self.carriers.halt();
            return Err(DeckFault::NotReady);
        }
        self.carriers.go()?;
        self.carriers.swap_notes(&mut self.standing);
        Ok(())
    }
}
