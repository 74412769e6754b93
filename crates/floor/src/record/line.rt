// The next step as a line of a script.
ghost use Rattle.std.specs.Prelude.{◌≡◌, ℕ, ◌+◌, [], ◌∷◌, ◌++◌, length};
ghost use Rattle.course.specs.Routes.{plan_of};
ghost use Rattle.course.specs.Stages.{motion_of};
ghost use Rattle.floor.specs.Shown.{shown};
ghost use Rattle.floor.specs.Lines.{letters, Lined};

use super::Floor;
use super::each::write_each;
use chain::fault::FloorFault;
use course::route::Route;
use course::stage::Moment;
use script::room::has_room;

// Writes a letter for each carrier and then the line's end, over the whole of what is lent.
fn write_letters(routes: &[Route], moment: Moment, out: &mut [u8])
    requires { length out.old ≡ length routes.now + 1 }
    ensures { (h w : ℕ) → out.new ≡ letters (motion_of moment.stage (plan_of h w routes.now)) moment.progress (length routes.now) ++ 10 ∷ [] }
{
    write_each(routes, out, |route| route.heading(moment).letter());
    out[routes.len()] = b'\n';
}

impl Floor {
    // Writes the next step from place `at` on, and answers how many bytes it is.
    // Kept as it is: the caller lends its buffer and a place in it, and is answered a refusal where there is no room.
    pub fn line(&self, out: &mut [u8], at: usize) -> Result<usize, FloorFault>
        ensures { Lined (shown self.now) out.old at result out.new }
    {
        if self.steps_done >= self.stages.total() {
            return Err(FloorFault::NoNextMove);
        }
        let count = self.sides.slots() + 1;
        if !has_room(out, at, count) {
            return Err(FloorFault::NoRoom);
        }
        let moment = self.stages.at(self.steps_done);
        write_letters(&self.routes, moment, &mut out[at..at + count]);
        Ok(count)
    }
}
