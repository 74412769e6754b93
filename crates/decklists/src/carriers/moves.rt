// How carriers move, or rest.
ghost use Rattle.std.specs.Prelude.{Bool, true};
ghost use Rattle.deck.specs.Decks.{Halted, Moved};
ghost use Rattle.decklists.specs.declared.extent.Extent.{Extent};
ghost use Rattle.decklists.specs.Lists.{listed, Inside};

use crate::carrier::Carrier;
use crate::extent::Extent;
use grid::heading::Heading;

// Moves every carrier by its heading, and sets all headings to stay.
pub(super) fn move_all(extent: Extent, carriers: &mut [Carrier])
    requires { Inside extent carriers.old }
    ensures { Moved (listed extent carriers.old true) (listed extent carriers.new true) }
{
    for carrier in carriers.iter_mut() {
        *carrier = Carrier {
            square: extent.led(carrier.square, carrier.heading),
            heading: Heading::Stay,
        };
    }
}

// Sets every heading to stay.
pub(super) fn rest_all(carriers: &mut [Carrier])
    ensures { (e : Extent) (ready : Bool) → Halted (listed e carriers.old ready) (listed e carriers.new ready) }
{
    for halted in carriers.iter_mut() {
        halted.heading = Heading::Stay;
    }
}
