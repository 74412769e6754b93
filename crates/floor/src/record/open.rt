// Opening a floor over a deck.
ghost use Rattle.std.specs.Prelude.{◌≡◌, ◌<◌, length, IfOk, MatchOption, MatchResult};
ghost use Rattle.chain.specs.declared.fault.FloorFault.TheVariants.{OffSlot};
ghost use Rattle.grid.specs.declared.slot.Slot.{Slot as AnySlot};
ghost use Rattle.grid.specs.Sides.{slot_count};
ghost use Rattle.chain.specs.Floors.{Sized};
ghost use Rattle.chain.specs.Calls.{InSlot, OnSlots, Opened};
ghost use Rattle.chain.specs.Promises.{EveryChainKeepsItsPromises};
ghost use Rattle.floor.specs.Shown.{shown, shown_answer};
ghost use Rattle.floor.specs.Resting.{SlotUnder, resting, AllRest};

use super::standing::is_sized;
use super::{Floor, NOWHERE};
use chain::fault::FloorFault;
use course::route::Route;
use course::stage::Stages;
use deck::Deck;
use grid::sides::{GREATEST_SLOTS, Sides};
use grid::slot::Slot;
use grid::square::Square;
use std::alloc::Global;

// The slot whose square this is, if it is a slot's.
fn slot_under(sides: Sides, square: Square) -> Option<Slot>
    ensures { MatchOption result ((s : AnySlot) → SlotUnder sides.height sides.width square s → ⊥) (λ s. SlotUnder sides.height sides.width square s) }
{
    if square.row >= sides.rows() || square.column >= sides.columns() || square.column % 3 != 1 {
        return None;
    }
    Some(Slot {
        row: square.row as u8,
        bay: (square.column / 3) as u8,
    })
}

// The slot in which a carrier stands, if it stands on one.
fn slot_of<D: Deck>(deck: &D, sides: Sides, carrier: usize) -> Option<Slot>
    requires { carrier < (D.Deck.view deck.now).carriers }
    ensures { MatchOption result ((s : AnySlot) → InSlot sides.height sides.width (D.Deck.view deck.now) carrier s → ⊥) (λ s. InSlot sides.height sides.width (D.Deck.view deck.now) carrier s) }
{
    deck.place(carrier)
        .and_then(|square| slot_under(sides, square))
}

fn rest_in(slot: Slot) -> Route
    ensures { result ≡ resting slot }
{
    Route {
        start: slot,
        middle_row: slot.row,
        goal: slot,
    }
}

// Lets every carrier rest in the slot where it stands; refused where one stands on none.
// Kept as it is: all slots are looked at before memory is asked for, so they stand in an array of the largest floor, lent to be
// written in place: handed out, it is copied whole, also for the smallest floor.
fn rest_all<D: Deck>(deck: &D, sides: Sides, routes: &mut [Route]) -> Result<(), FloorFault>
    requires sized { Sized sides.height sides.width (D.Deck.view deck.now) }
    requires size { length routes.old ≡ slot_count sides.height sides.width }
    ensures { MatchResult result (λ _. AllRest sides.height sides.width (D.Deck.view deck.now) (slot_count sides.height sides.width) routes.new) (λ fault. (fault ≡ OffSlot) × (OnSlots sides.height sides.width (D.Deck.view deck.now) → ⊥)) }
{
    for (carrier, route) in routes.iter_mut().enumerate() {
        let slot = slot_of(deck, sides, carrier).ok_or(FloorFault::OffSlot)?;
        *route = rest_in(slot);
    }
    Ok(())
}

impl Floor {
    // A floor with nothing to do: every carrier rests in the slot where the deck shows it. What the record promises
    // from here on, through every chain of calls, is `every_chain`.
    // Kept as it is: the call asks itself whether two numbers are a floor's sides, so it takes the numbers.
    pub fn open<D: Deck>(
        heap: Global,
        deck: &D,
        height: usize,
        width: usize,
    ) -> Result<Floor, FloorFault>
        ensures opened { Opened height width (D.Deck.view deck.now) (shown_answer result) }
        ensures every_chain { IfOk result (λ f. EveryChainKeepsItsPromises height width (shown f) (D.Deck.view deck.now)) }
    {
        let sides = Sides::new(height, width).ok_or(FloorFault::BadSides)?;
        if !is_sized(deck, sides) {
            return Err(FloorFault::WrongDeck);
        }
        let mut all = [NOWHERE; GREATEST_SLOTS];
        let resting = &mut all[..sides.slots()];
        rest_all(deck, sides, resting)?;
        let routes = resting.to_vec(heap)?;
        let stages = Stages::of(&routes);
        Ok(Floor {
            sides,
            routes,
            stages,
            steps_done: 0,
            orders: 0,
        })
    }
}
