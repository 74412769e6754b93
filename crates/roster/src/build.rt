// How a roster is made.
ghost use Rattle.std.specs.Prelude.{MatchResult};
ghost use Rattle.grid.specs.Sides.{GoodSides};
ghost use Rattle.deck.specs.Turned.{turned_view};
ghost use Rattle.decklists.specs.New.{New, NotMade};
ghost use Rattle.decklists.specs.Laid.{read_view};
ghost use Rattle.roster.specs.Rosters.{roster_view};

use crate::Roster;
use decklists::carriers::Carriers;
use decklists::fault::BuildFault;
use decklists::laying::Laying;
use std::alloc::Global;

impl Roster {
    fn laid(heap: Global, height: usize, width: usize, laying: Laying) -> Result<Roster, BuildFault>
        ensures { MatchResult result (λ roster. GoodSides height width × New height width (read_view laying (roster_view roster))) (NotMade height width) }
    {
        let carriers = Carriers::start(heap, height, width, laying)?;
        Ok(Roster { carriers })
    }

    // Carrier s on slot s.
    pub fn upright(heap: Global, height: usize, width: usize) -> Result<Roster, BuildFault>
        ensures { MatchResult result (λ roster. GoodSides height width × New height width (roster_view roster)) (NotMade height width) }
    {
        Roster::laid(heap, height, width, Laying::Upright)
    }

    // With rows and columns exchanged, so that a turned deck over it shows carrier s on slot s.
    pub fn lying(heap: Global, height: usize, width: usize) -> Result<Roster, BuildFault>
        ensures { MatchResult result (λ roster. GoodSides height width × New height width (turned_view (roster_view roster))) (NotMade height width) }
    {
        Roster::laid(heap, height, width, Laying::Lying)
    }
}
