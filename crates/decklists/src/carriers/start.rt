// How the carriers of a new deck stand.
ghost use Rattle.std.specs.Prelude.{◌≡◌, ℕ, ◌<◌, ◌≤◌, length, slice_index_or, All, IfOk, MatchResult, None, Option};
ghost use Rattle.grid.specs.Sides.{GoodSides, slot_count};
ghost use Rattle.grid.specs.Slots.{slot};
ghost use Rattle.decklists.specs.Carriers.{carriers_view};
ghost use Rattle.decklists.specs.Laid.{read_view};
ghost use Rattle.decklists.specs.Lists.{nobody};
ghost use Rattle.decklists.specs.New.{New, NotMade};
ghost use Rattle.decklists.specs.Started.{resting_in, Started};

use crate::carrier::Carrier;
use crate::carriers::Carriers;
use crate::carriers::notes::blank_table;
use crate::fault::BuildFault;
use crate::laying::Laying;
use grid::heading::Heading;
use grid::sides::Sides;
use grid::slot::Slot;
use grid::square::Square;
use std::alloc::{AllocError, Global};

// The carriers of one row: carrier b of them at rest in bay b.
fn place_row(row: u8, laying: Laying, carriers: &mut [Carrier])
    requires { length carriers.old ≤ 256 }
    ensures { (b : ℕ) → b < length carriers.old → slice_index_or carriers.new b nobody ≡ resting_in laying (slot row b) }
{
    for (bay, carrier) in carriers.iter_mut().enumerate() {
        let slot = Slot {
            row,
            bay: bay as u8,
        };
        *carrier = Carrier {
            square: laying.square(slot.square()),
            heading: Heading::Stay,
        };
    }
}

// Carrier s on slot s, all at rest. Row by row, since a division for each slot takes longer than to place it.
// Kept as it is: of what is written through `chunks_mut` a proof knows no element.
fn place_rows(sides: Sides, laying: Laying, carriers: &mut [Carrier])
    requires { length carriers.old ≡ slot_count sides.height sides.width }
    ensures { Started laying sides.height sides.width carriers.new }
{
    for row in 0..sides.rows() {
        let first = row * sides.width;
        place_row(row as u8, laying, &mut carriers[first..first + sides.width]);
    }
}

// All carriers where they start. Written in place: of one that is pushed the padding is copied by way of the stack, and the
// processor waits for it.
fn place_all(heap: Global, sides: Sides, laying: Laying) -> Result<Vec<Carrier>, AllocError>
    ensures { IfOk result (λ v. Started laying sides.height sides.width v.items) }
{
    let square = Square { row: 0, column: 0 };
    let heading = Heading::Stay;
    let mut carriers = vec![in heap; Carrier { square, heading }; sides.slots()]?;
    place_rows(sides, laying, &mut carriers);
    Ok(carriers)
}

impl Carriers {
    // On a floor of those sides, laid that way: read the right way round, the deck is new.
    // Kept as it is: the call asks itself whether two numbers are a floor's sides, so it takes the numbers.
    pub fn start(
        heap: Global,
        height: usize,
        width: usize,
        laying: Laying,
    ) -> Result<Carriers, BuildFault>
        ensures new { MatchResult result (λ c. GoodSides height width × New height width (read_view laying (carriers_view c))) (NotMade height width) }
        ensures blank { IfOk result (λ c. All (λ (note : Option ℕ). note ≡ None) c.notes.items) }
    {
        let sides = Sides::new(height, width).ok_or(BuildFault::BadSides)?;
        let extent = laying.extent(sides);
        Ok(Carriers {
            extent,
            list: place_all(heap, sides, laying)?,
            notes: blank_table(heap, extent.squares())?,
        })
    }
}
