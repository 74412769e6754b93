// What is asked before the carriers move.
ghost use Rattle.std.specs.Prelude.{◌≡◌, ℕ, ◌<◌, length, MatchBool, MatchResult, ◌≢◌};
ghost use Rattle.deck.specs.Decks.{AllRemain, SomeLeaves, NoneExchange, SomeExchange, Exchanges, GoRefused};
ghost use Rattle.decklists.specs.Carriers.{carriers_view};
ghost use Rattle.decklists.specs.Notes.{EndsNoted};
ghost use Rattle.decklists.specs.Cleared.{Cleared};

use crate::carriers::Carriers;
use crate::carriers::notes::note_ends;
use deck::fault::DeckFault;

impl Carriers {
    // Some carrier leaves the floor.
    fn some_leaves(&self) -> bool
        ensures { MatchBool result (SomeLeaves (carriers_view self.now)) (AllRemain (carriers_view self.now)) }
    {
        self.list.iter().any(|carrier| !self.extent.remains(carrier.square, carrier.heading))
    }

    // Carrier k exchanges squares with another; the notes say who comes to where it stands.
    fn exchanges(&self, k: usize) -> bool
        requires remain { AllRemain (carriers_view self.now) }
        requires noted { EndsNoted (carriers_view self.now) self.now.notes.items }
        requires there { k < length self.now.list.items }
        ensures { MatchBool result ((j : ℕ) × (j < length self.now.list.items) × (j ≢ k) × Exchanges (carriers_view self.now) j k) ((j : ℕ) → j < length self.now.list.items → (j ≢ k) → Exchanges (carriers_view self.now) j k → ⊥) }
    {
        let carrier = self.list[k];
        let Some(j) = self.notes[self.extent.number(carrier.square)] else {
            return false;
        };
        j != k && self.extent.led(carrier.square, carrier.heading) == self.list[j].square
    }

    // Some two carriers exchange squares. It goes over the numbers, since an exchange is asked of two carriers by number.
    fn some_exchange(&self) -> bool
        requires remain { AllRemain (carriers_view self.now) }
        requires noted { EndsNoted (carriers_view self.now) self.now.notes.items }
        ensures { MatchBool result (SomeExchange (carriers_view self.now)) (NoneExchange (carriers_view self.now)) }
    {
        (0..self.list.len()).any(|k| self.exchanges(k))
    }

    // Whether a ready deck would go, and if not, why. If it would, the notes are left saying who comes to each square.
    pub(super) fn allow(&mut self) -> Result<(), DeckFault>
        ensures same { carriers_view self.new ≡ carriers_view self.old }
        ensures allowed { MatchResult result (λ _. Cleared (carriers_view self.old) self.new.notes.items) (GoRefused (carriers_view self.old)) }
    {
        if self.some_leaves() {
            return Err(DeckFault::OffFloor);
        }
        note_ends(self.extent, &self.list, &mut self.notes)?;
        if self.some_exchange() {
            return Err(DeckFault::Exchange);
        }
        Ok(())
    }
}
