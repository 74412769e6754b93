// How a board is made.
ghost use Rattle.std.specs.Prelude.{MatchResult};
ghost use Rattle.grid.specs.Sides.{GoodSides};
ghost use Rattle.deck.specs.Turned.{turned_view};
ghost use Rattle.decklists.specs.New.{New, NotMade};
ghost use Rattle.decklists.specs.Laid.{read_view};
ghost use Rattle.board.specs.Boards.{board_view};

use crate::Board;
use decklists::carriers::Carriers;
use decklists::fault::BuildFault;
use decklists::laying::Laying;
use std::alloc::Global;

impl Board {
    fn laid(heap: Global, height: usize, width: usize, laying: Laying) -> Result<Board, BuildFault>
        ensures { MatchResult result (λ board. GoodSides height width × New height width (read_view laying (board_view board))) (NotMade height width) }
    {
        let carriers = Carriers::start(heap, height, width, laying)?;
        Ok(Board {
            standing: carriers.standing(heap)?,
            carriers,
            closed: true,
        })
    }

    // Carrier s on slot s.
    pub fn upright(heap: Global, height: usize, width: usize) -> Result<Board, BuildFault>
        ensures { MatchResult result (λ board. GoodSides height width × New height width (board_view board)) (NotMade height width) }
    {
        Board::laid(heap, height, width, Laying::Upright)
    }

    // With rows and columns exchanged, so that a turned deck over it shows carrier s on slot s.
    pub fn lying(heap: Global, height: usize, width: usize) -> Result<Board, BuildFault>
        ensures { MatchResult result (λ board. GoodSides height width × New height width (turned_view (board_view board))) (NotMade height width) }
    {
        Board::laid(heap, height, width, Laying::Lying)
    }
}
