// Shows small decks at work: the floor before a move, the answer, and the floor after it.
//
// For: seeing what the decks do. Promises: nothing beyond what the decks do. Rests on: grid, deck, decklists,
// roster, board; anyhow, for errors.
#![tactic(auto)]

use anyhow::anyhow;
use board::Board;
use deck::Deck;
use deck::drive::drive;
use deck::turned::Turned;
use grid::heading::Heading;
use grid::square::Square;
use roster::Roster;

// How a square is shown: the digit of the carrier on it, else a slot or a lane.
fn mark<D: Deck>(deck: &D, square: Square) -> char {
    for (carrier, digit) in ['0', '1', '2'].into_iter().enumerate() {
        if deck.place(carrier) == Some(square) {
            return digit;
        }
    }
    if square.column % 3 == 1 { '_' } else { '.' }
}

fn show<D: Deck>(rt: &HostRuntime, deck: &D) -> anyhow::Result<()> {
    for row in 0..deck.rows() {
        // Kept as it is: collected into a text, each row would ask for memory.
        for column in 0..deck.columns() {
            rt.print(mark(deck, Square { row, column }))?;
        }
        rt.println("")?;
    }
    Ok(())
}

fn attempt<D: Deck>(
    rt: &HostRuntime,
    deck: &mut D,
    what: &str,
    headings: &[Heading],
) -> anyhow::Result<()> {
    show(rt, deck)?;
    match drive(deck, headings) {
        Ok(()) => println!(rt; "{what}: accepted")?,
        Err(fault) => println!(rt; "{what}: refused {}", fault.number())?,
    }
    show(rt, deck)?;
    rt.println("")?;
    Ok(())
}

fn tour<D: Deck>(rt: &HostRuntime, deck: &mut D, name: &str) -> anyhow::Result<()> {
    println!(rt; "== {name}")?;
    attempt(rt, deck, "0 down, 1 up", &[Heading::Down, Heading::Up])?;
    attempt(rt, deck, "0 down", &[Heading::Down])?;
    attempt(rt, deck, "0 up", &[Heading::Up])?;
    attempt(
        rt,
        deck,
        "0 down, 1 down, 2 left",
        &[Heading::Down, Heading::Down, Heading::Left],
    )
}

fn rosters(rt: &HostRuntime) -> anyhow::Result<()> {
    let mut upright = Roster::upright(rt.alloc(), 1, 1).map_err(|_| anyhow!("no roster"))?;
    tour(rt, &mut upright, "roster")?;
    let lying = Roster::lying(rt.alloc(), 1, 1).map_err(|_| anyhow!("no roster"))?;
    tour(rt, &mut Turned::over(lying), "turned over a lying roster")
}

fn boards(rt: &HostRuntime) -> anyhow::Result<()> {
    let mut upright = Board::upright(rt.alloc(), 1, 1).map_err(|_| anyhow!("no board"))?;
    tour(rt, &mut upright, "board")?;
    upright.open_contact();
    rt.println("== board, its contact open")?;
    attempt(rt, &mut upright, "0 up", &[Heading::Up])?;
    upright.close_contact();
    rt.println("== board, its contact closed again")?;
    attempt(rt, &mut upright, "0 up", &[Heading::Up])?;
    let lying = Board::lying(rt.alloc(), 1, 1).map_err(|_| anyhow!("no board"))?;
    tour(rt, &mut Turned::over(lying), "turned over a lying board")
}

fn run(rt: &HostRuntime) -> anyhow::Result<()> {
    rosters(rt)?;
    boards(rt)
}

fn main(rt: HostRuntime) -> anyhow::Result<()> {
    run(&rt)
}
