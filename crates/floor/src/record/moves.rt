// Step and back.
ghost use Rattle.std.specs.Prelude.{◌≡◌, ℕ, ◌<◌, ◌≤◌, length, slice_index_or};
ghost use Rattle.grid.specs.declared.heading.Heading.TheVariants.{Stay};
ghost use Rattle.motion.specs.Plans.{whole};
ghost use Rattle.course.specs.Routes.{plan_of};
ghost use Rattle.course.specs.Stages.{heading_when};
ghost use Rattle.chain.specs.Floors.{Sized, slots};
ghost use Rattle.chain.specs.Calls.{Stepped, Backed};
ghost use Rattle.floor.specs.Shown.{shown};
ghost use Rattle.floor.specs.Standing.{Placed};
ghost use Rattle.floor.specs.Moving.{way_heading, leaving, coming, Gone, Advanced};

use super::Floor;
use super::each::write_each;
use chain::fault::FloorFault;
use course::route::Route;
use course::stage::Moment;
use deck::Deck;
use deck::drive::drive;
use deck::fault::DeckFault;
use grid::heading::Heading;
use grid::sides::GREATEST_SLOTS;

// Whether a step of the plan is made or undone.
// Kept as it is: a closure would be no plainer, since the contracts also say by a way where the carriers stand.
#[derive(Clone, Copy, PartialEq, Eq, Debug)]
enum Way {
    On,
    Back,
}

impl Way {
    fn heading(self, heading: Heading) -> Heading
        ensures { result ≡ way_heading self heading }
    {
        match self {
            Way::On => heading,
            Way::Back => heading.opposite(),
        }
    }
}

// Writes every carrier's heading at a moment, of those that stay too.
fn write_headings(routes: &[Route], moment: Moment, way: Way, headings: &mut [Heading])
    requires { length headings.old ≡ length routes.now }
    ensures { (h w c : ℕ) → c < length routes.now → slice_index_or headings.new c Stay ≡ way_heading way (heading_when moment (plan_of h w routes.now) c) }
{
    write_each(routes, headings, |route| way.heading(route.heading(moment)));
}

impl Floor {
    // Steers every carrier by the plan's step, made or undone, and goes.
    fn make_move<D: Deck>(&self, deck: &mut D, step: usize, way: Way) -> Result<(), DeckFault>
        requires sized { Sized self.now.sides.height self.now.sides.width (D.Deck.view deck.old) }
        requires placed { Placed (D.Deck.view deck.old) (slots (shown self.now)) (leaving way (shown self.now).plan step) }
        requires next { step < (shown self.now).length }
        ensures { Gone (D.Deck.view deck.old) (coming way (shown self.now).plan step) result (D.Deck.view deck.new) }
    {
        let mut all = [Heading::Stay; GREATEST_SLOTS];
        let headings = &mut all[..self.sides.slots()];
        write_headings(&self.routes, self.stages.at(step), way, headings);
        drive(deck, headings)
    }

    // Makes a move of the plan if the deck stands as the record says, after which so many steps are done.
    fn move_on<D: Deck>(
        &mut self,
        deck: &mut D,
        step: usize,
        way: Way,
        done: usize,
    ) -> Result<usize, FloorFault>
        requires leaves { leaving way (shown self.old).plan step ≡ (whole (shown self.old).plan).place (shown self.old).done }
        requires comes { coming way (shown self.old).plan step ≡ (whole (shown self.old).plan).place done }
        requires next { step < (shown self.old).length }
        requires within { done ≤ (shown self.old).length }
        ensures { Advanced (shown self.old) (D.Deck.view deck.old) done result (shown self.new) (D.Deck.view deck.new) }
    {
        if !self.stands(&*deck) {
            return Err(FloorFault::Astray);
        }
        self.make_move(deck, step, way)?;
        self.steps_done = done;
        Ok(done)
    }

    // Makes the plan's next move.
    pub fn step<D: Deck>(&mut self, deck: &mut D) -> Result<usize, FloorFault>
        ensures { Stepped (shown self.old) (D.Deck.view deck.old) result (shown self.new) (D.Deck.view deck.new) }
    {
        let step = self.steps_done;
        if step >= self.stages.total() {
            return Err(FloorFault::NoNextMove);
        }
        self.move_on(deck, step, Way::On, step + 1)
    }

    // Makes the reverse of the last move.
    pub fn back<D: Deck>(&mut self, deck: &mut D) -> Result<usize, FloorFault>
        ensures { Backed (shown self.old) (D.Deck.view deck.old) result (shown self.new) (D.Deck.view deck.new) }
    {
        let step = self
            .steps_done
            .checked_sub(1)
            .ok_or(FloorFault::NoLastMove)?;
        self.move_on(deck, step, Way::Back, step)
    }
}
