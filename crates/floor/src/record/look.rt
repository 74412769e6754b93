ghost use Rattle.std.specs.Prelude.{◌≡◌};
ghost use Rattle.floor.specs.Shown.{shown};

use super::Floor;

// How far a floor has come.
#[derive(Clone, Copy, PartialEq, Eq, Debug)]
pub struct Look {
    pub steps_done: usize,
    pub length: usize,
    pub orders: u16,
}

impl Floor {
    pub fn look(&self) -> Look
        ensures done { result.steps_done ≡ (shown self.now).done }
        ensures length { result.length ≡ (shown self.now).length }
        ensures orders { result.orders ≡ (shown self.now).orders }
    {
        Look {
            steps_done: self.steps_done,
            length: self.stages.total(),
            orders: self.orders,
        }
    }
}
