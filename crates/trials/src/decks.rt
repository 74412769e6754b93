// Decks at work: each case is written once, for any deck that starts with carrier s on slot s.
use board::Board;
use deck::Deck;
use deck::drive::drive;
use deck::fault::DeckFault;
use deck::turned::Turned;
use decklists::fault::BuildFault;
use grid::heading::Heading;
use grid::square::Square;
use roster::Roster;
use std::process::Abort;
use std::test::Fail;

// What was answered, a refusal by its number.
fn told(answer: Result<(), DeckFault>) -> Result<(), u8> {
    answer.map_err(DeckFault::number)
}

// Whether a deck is made, a refusal by its number.
fn made<D: Drop>(deck: Result<D, BuildFault>) -> Result<(), u8> {
    deck.map(|_| ()).map_err(BuildFault::number)
}

// Where a carrier stands that is there.
fn at(row: usize, column: usize) -> Option<Square> {
    Some(Square { row, column })
}

fn heads<D: Deck>(deck: &D, carrier: usize) -> Option<u8> {
    deck.heading(carrier).map(Heading::number)
}

fn starts<D: Deck>(rt: &impl Abort, deck: &D) {
    assert_eq!(rt; deck.rows(), 3);
    assert_eq!(rt; deck.columns(), 3);
    assert_eq!(rt; deck.carriers(), 3);
    assert_eq!(rt; deck.place(0), at(0, 1));
    assert_eq!(rt; deck.place(1), at(1, 1));
    assert_eq!(rt; deck.place(2), at(2, 1));
}

fn rests<D: Deck>(rt: &impl Abort, deck: &D) {
    assert_eq!(rt; heads(deck, 0), Some(0));
    assert_eq!(rt; heads(deck, 1), Some(0));
    assert_eq!(rt; heads(deck, 2), Some(0));
}

// The refused moves leave everybody in place, so they come first.
fn moves<D: Deck>(rt: &impl Abort, deck: &mut D) {
    assert!(rt; (*deck).is_ready());
    starts(rt, deck);
    assert_eq!(rt; told(drive(deck, &[Heading::Down, Heading::Up])), Err(24));
    starts(rt, deck);
    assert_eq!(rt; told(drive(deck, &[Heading::Down])), Err(23));
    starts(rt, deck);
    assert_eq!(rt; told(drive(deck, &[Heading::Up])), Err(22));
    starts(rt, deck);
    rests(rt, deck);
    assert_eq!(rt;
        told(drive(deck, &[Heading::Down, Heading::Down, Heading::Left])),
        Ok(())
    );
    assert_eq!(rt; deck.place(0), at(1, 1));
    assert_eq!(rt; deck.place(1), at(2, 1));
    assert_eq!(rt; deck.place(2), at(2, 0));
    rests(rt, deck);
}

fn steers<D: Deck>(rt: &impl Abort, deck: &mut D) {
    assert_eq!(rt; told(deck.steer(3, 0)), Err(25));
    assert_eq!(rt; told(deck.steer(0, 5)), Err(26));
    assert_eq!(rt; told(deck.steer(3, 5)), Err(25));
    rests(rt, deck);
    assert_eq!(rt; told(deck.steer(2, 4)), Ok(()));
    assert_eq!(rt; heads(deck, 2), Some(4));
    assert_eq!(rt;
        told(drive(deck, &[Heading::Up, Heading::Up, Heading::Up, Heading::Up])),
        Err(25)
    );
    assert_eq!(rt; heads(deck, 2), Some(4));
    starts(rt, deck);
}

fn works<D: Deck>(rt: &impl Abort, deck: &mut D) {
    steers(rt, deck);
    moves(rt, deck);
}

#[test]
fn roster_moves(rt: HostRuntime) -> Result<(), Fail> {
    let mut deck = Roster::upright(rt.alloc(), 1, 1)?;
    works(&rt, &mut deck);
    Ok(())
}

#[test]
fn board_moves(rt: HostRuntime) -> Result<(), Fail> {
    let mut deck = Board::upright(rt.alloc(), 1, 1)?;
    works(&rt, &mut deck);
    assert_eq!(rt; deck.standing_on(Square { row: 2, column: 0 }), Some(2));
    assert_eq!(rt; deck.standing_on(Square { row: 0, column: 1 }), None);
    assert_eq!(rt; deck.standing_on(Square { row: 3, column: 0 }), None);
    Ok(())
}

#[test]
fn turned_roster_moves(rt: HostRuntime) -> Result<(), Fail> {
    let lying = Roster::lying(rt.alloc(), 1, 1)?;
    let mut deck = Turned::over(lying);
    works(&rt, &mut deck);
    assert_eq!(rt; deck.below().place(2), at(0, 2));
    Ok(())
}

#[test]
fn turned_board_moves(rt: HostRuntime) -> Result<(), Fail> {
    let lying = Board::lying(rt.alloc(), 1, 1)?;
    let mut deck = Turned::over(lying);
    works(&rt, &mut deck);
    let below = deck.into_below();
    assert_eq!(rt; below.place(2), at(0, 2));
    Ok(())
}

#[test]
fn sides(rt: HostRuntime) {
    let heap = rt.alloc();
    assert_eq!(rt; made(Roster::upright(heap, 16, 16)), Ok(()));
    assert_eq!(rt; made(Roster::lying(heap, 1, 16)), Ok(()));
    assert_eq!(rt; made(Roster::upright(heap, 0, 1)), Err(1));
    assert_eq!(rt; made(Roster::lying(heap, 1, 17)), Err(1));
    assert_eq!(rt; made(Board::upright(heap, 16, 16)), Ok(()));
    assert_eq!(rt; made(Board::lying(heap, 16, 1)), Ok(()));
    assert_eq!(rt; made(Board::upright(heap, 17, 1)), Err(1));
    assert_eq!(rt; made(Board::lying(heap, 1, 0)), Err(1));
}

#[test]
fn open_board(rt: HostRuntime) -> Result<(), Fail> {
    let mut deck = Board::upright(rt.alloc(), 1, 1)?;
    deck.open_contact();
    assert!(rt; !deck.is_ready());
    assert_eq!(rt; told(deck.steer(2, 4)), Ok(()));
    assert_eq!(rt; heads(&deck, 2), Some(4));
    assert_eq!(rt; told(deck.go()), Err(21));
    starts(&rt, &deck);
    rests(&rt, &deck);
    assert!(rt; !deck.is_ready());
    deck.close_contact();
    moves(&rt, &mut deck);
    Ok(())
}
