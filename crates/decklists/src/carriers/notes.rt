// Tables over the squares, which note a carrier on some of them.
ghost use Rattle.std.specs.Prelude.{◌≡◌, ◌*◌, length, replicate, true, IfOk, MatchOption, MatchResult, None, ◌<◌};
ghost use Rattle.grid.specs.Squares.{OnFloor};
ghost use Rattle.deck.specs.Decks.{AllRemain, SomeMeet};
ghost use Rattle.deck.specs.declared.fault.DeckFault.TheVariants.{SharedSquare};
ghost use Rattle.decklists.specs.Lists.{listed, Inside};
ghost use Rattle.decklists.specs.Carriers.{carriers_view};
ghost use Rattle.decklists.specs.Notes.{square_number, EndsNoted, PlacesNoted};

use crate::carrier::Carrier;
use crate::carriers::Carriers;
use crate::extent::Extent;
use deck::fault::DeckFault;
use grid::square::Square;
use std::alloc::{AllocError, Global};
use std::mem::swap;

pub(super) fn blank_table(heap: Global, squares: usize) -> Result<Vec<Option<usize>>, AllocError>
    ensures { IfOk result (λ v. v.items ≡ replicate squares None) }
{
    vec![in heap; None; squares]
}

// Notes which carrier comes to each square. Where some two come to one, the table is of no use.
// Kept as it is: as a method it goes over one field and writes another, and the loop's proof had no names for the fields.
pub(super) fn note_ends(
    extent: Extent,
    carriers: &[Carrier],
    table: &mut [Option<usize>],
) -> Result<(), DeckFault>
    requires inside { Inside extent carriers.now }
    requires remain { AllRemain (listed extent carriers.now true) }
    requires room { length table.old ≡ extent.columns * extent.rows }
    ensures { MatchResult result (λ _. EndsNoted (listed extent carriers.now true) table.new) (λ f. (f ≡ SharedSquare) × SomeMeet (listed extent carriers.now true)) }
{
    table.fill(None);
    for (k, carrier) in carriers.iter().enumerate() {
        let number = extent.number(extent.led(carrier.square, carrier.heading));
        if table[number].is_some() {
            return Err(DeckFault::SharedSquare);
        }
        table[number] = Some(k);
    }
    Ok(())
}

impl Carriers {
    // A table of who stands on each square.
    pub fn standing(&self, heap: Global) -> Result<Vec<Option<usize>>, AllocError>
        ensures room { IfOk result (λ v. length v.items ≡ (carriers_view self.now).columns * (carriers_view self.now).rows) }
        ensures noted { IfOk result (λ v. PlacesNoted (carriers_view self.now) v.items) }
    {
        let mut table = blank_table(heap, self.extent.squares())?;
        for (k, carrier) in self.list.iter().enumerate() {
            table[self.extent.number(carrier.square)] = Some(k);
        }
        Ok(table)
    }

    // Exchanges the notes for another table over as many squares.
    pub fn swap_notes(&mut self, table: &mut Vec<Option<usize>>)
        requires { length table.old.items ≡ (carriers_view self.old).columns * (carriers_view self.old).rows }
        ensures same { carriers_view self.new ≡ carriers_view self.old }
        ensures given { self.new.notes ≡ table.old }
        ensures taken { table.new ≡ self.old.notes }
    {
        swap(&mut self.notes, table);
    }

    // The number of a square of the floor, counted row by row; absent where there is no such square.
    pub fn number(&self, square: Square) -> Option<usize>
        ensures { let v = carriers_view self.now in MatchOption result (OnFloor v.rows v.columns square → ⊥) (λ n. OnFloor v.rows v.columns square × (n ≡ square_number v.columns square) × (n < v.columns * v.rows)) }
    {
        let Extent { rows, columns } = self.extent;
        if square.row < rows && square.column < columns {
            Some(self.extent.number(square))
        } else {
            None
        }
    }
}
