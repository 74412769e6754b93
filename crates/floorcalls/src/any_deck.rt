// Any of the decks that can be asked for.
ghost use Rattle.floorcalls.specs.Decks.{either_view, either_sound};

use crate::refusal::Refusal;
use board::Board;
use deck::Deck;
use deck::fault::DeckFault;
use deck::turned::Turned;
use grid::heading::Heading;
use grid::square::Square;
use roster::Roster;
use std::alloc::Global;

// A deck of one of two types.
#[derive(Drop)]
pub enum EitherDeck<A, B> {
    First(A),
    Second(B),
}

pub type PlainDeck = EitherDeck<Roster, Board>;

pub type AnyDeck = EitherDeck<PlainDeck, Turned<PlainDeck>>;

// A new deck of a kind, if there is such a kind.
pub(crate) fn make(
    heap: Global,
    kind: &str,
    height: usize,
    width: usize,
) -> Result<AnyDeck, Refusal> {
    match kind {
        "roster" => {
            let deck = Roster::upright(heap, height, width)?;
            Ok(EitherDeck::First(EitherDeck::First(deck)))
        }
        "board" => {
            let deck = Board::upright(heap, height, width)?;
            Ok(EitherDeck::First(EitherDeck::Second(deck)))
        }
        "turned-roster" => {
            let deck = Roster::lying(heap, height, width)?;
            Ok(EitherDeck::Second(Turned::over(EitherDeck::First(deck))))
        }
        "turned-board" => {
            let deck = Board::lying(heap, height, width)?;
            Ok(EitherDeck::Second(Turned::over(EitherDeck::Second(deck))))
        }
        _ => Err(Refusal::Malformed),
    }
}

// The deck with its contact opened or closed; a roster has none.
// Kept as it is: a turned deck lends what it lies over only to be read, so the deck is taken apart and put together again.
fn plain_contacted(deck: PlainDeck, closed: bool) -> PlainDeck {
    match deck {
        EitherDeck::Second(mut board) => {
            if closed {
                board.close_contact();
            } else {
                board.open_contact();
            }
            EitherDeck::Second(board)
        }
        roster => roster,
    }
}

pub(crate) fn contacted(deck: AnyDeck, closed: bool) -> AnyDeck {
    match deck {
        EitherDeck::First(plain) => EitherDeck::First(plain_contacted(plain, closed)),
        EitherDeck::Second(turned) => {
            let plain = plain_contacted(turned.into_below(), closed);
            EitherDeck::Second(Turned::over(plain))
        }
    }
}

// Kept as it is: no function may hand out a `dyn` value, so each call matches on the type.
impl<A: Deck, B: Deck> Deck for EitherDeck<A, B> {
    ghost view = { either_view A.Deck.view B.Deck.view };

    ghost sound = { either_sound A.Deck.view B.Deck.view A.Deck.sound B.Deck.sound };

    fn rows(&self) -> usize {
        match self {
            EitherDeck::First(deck) => deck.rows(),
            EitherDeck::Second(deck) => deck.rows(),
        }
    }

    fn columns(&self) -> usize {
        match self {
            EitherDeck::First(deck) => deck.columns(),
            EitherDeck::Second(deck) => deck.columns(),
        }
    }

    fn carriers(&self) -> usize {
        match self {
            EitherDeck::First(deck) => deck.carriers(),
            EitherDeck::Second(deck) => deck.carriers(),
        }
    }

    fn is_ready(&self) -> bool {
        match self {
            EitherDeck::First(deck) => deck.is_ready(),
            EitherDeck::Second(deck) => deck.is_ready(),
        }
    }

    fn place(&self, carrier: usize) -> Option<Square> {
        match self {
            EitherDeck::First(deck) => deck.place(carrier),
            EitherDeck::Second(deck) => deck.place(carrier),
        }
    }

    fn heading(&self, carrier: usize) -> Option<Heading> {
        match self {
            EitherDeck::First(deck) => deck.heading(carrier),
            EitherDeck::Second(deck) => deck.heading(carrier),
        }
    }

    fn steer(&mut self, carrier: usize, heading: u8) -> Result<(), DeckFault> {
        match self {
            EitherDeck::First(deck) => deck.steer(carrier, heading),
            EitherDeck::Second(deck) => deck.steer(carrier, heading),
        }
    }

    fn go(&mut self) -> Result<(), DeckFault> {
        match self {
            EitherDeck::First(deck) => deck.go(),
            EitherDeck::Second(deck) => deck.go(),
        }
    }
}
