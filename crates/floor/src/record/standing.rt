// Whether a deck stands as the record says.
ghost use Rattle.std.specs.Prelude.{◌≡◌, ℕ, length};
ghost use Rattle.course.specs.Routes.{plan_of};
ghost use Rattle.course.specs.Stages.{place_when};
ghost use Rattle.chain.specs.Floors.{Sized, Stands};
ghost use Rattle.floor.specs.Shown.{shown};
ghost use Rattle.floor.specs.Telling.{Tells};
ghost use Rattle.floor.specs.Standing.{Placed};

use super::Floor;
use course::route::Route;
use course::stage::Moment;
use deck::Deck;
use grid::sides::Sides;

// Whether a deck has rows, columns and carriers as a floor of these sides.
pub(super) fn is_sized<D: Deck>(deck: &D, sides: Sides) -> bool
    ensures { Tells result (Sized sides.height sides.width (D.Deck.view deck.now)) }
{
    deck.rows() == sides.rows()
        && deck.columns() == sides.columns()
        && deck.carriers() == sides.slots()
}

// Whether each carrier is where its route has it at a moment.
// Kept as it is: routes and moment are asked apart from the record, so that the proof of the loop needs no record.
fn are_at<D: Deck>(deck: &D, routes: &[Route], moment: Moment) -> bool
    requires { (D.Deck.view deck.now).carriers ≡ length routes.now }
    ensures { (h w : ℕ) → Tells result (Placed (D.Deck.view deck.now) (length routes.now) (place_when moment (plan_of h w routes.now))) }
{
    let mut carriers = routes.iter().enumerate();
    carriers.all(|(carrier, route)| deck.place(carrier) == Some(route.place(moment)))
}

impl Floor {
    // Whether the deck has the floor's sizes, with each carrier where the record puts it.
    pub(super) fn stands<D: Deck>(&self, deck: &D) -> bool
        ensures { Tells result (Stands (shown self.now) (D.Deck.view deck.now)) }
    {
        if !is_sized(deck, self.sides) {
            return false;
        }
        are_at(deck, &self.routes, self.stages.at(self.steps_done))
    }
}
