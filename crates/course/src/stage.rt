ghost use Rattle.std.specs.Prelude.{◌≡◌, ℕ, ◌+◌, ◌<◌, if◌then◌else◌, nat_eq};
ghost use Rattle.std.specs.Fn.{FnReturnsAt};
ghost use Rattle.motion.specs.Plans.{Plan, run_steps, plan_steps, whole};
ghost use Rattle.course.specs.Routes.{plan_of};
ghost use Rattle.course.specs.Stages.{motion_of, Alike, Staged, Standing, total_steps};
ghost use Rattle.course.specs.declared.route.Route.{Route as AnyRoute};
ghost use Rattle.course.specs.Greatest.{greatest_of};
ghost use Rattle.course.specs.Upright.{on_deck};

use crate::route::Route;
use grid::heading::Heading;

// The stages of every plan, in their order.
#[derive(Clone, Copy, Debug, PartialEq, Eq)]
pub enum Stage {
    FirstColumns,
    Turn,
    Rows,
    TurnBack,
    LastColumns,
}

impl Stage {
    // The moment after so many steps of the stage.
    fn after(self, progress: usize) -> Moment
        ensures stage { result.stage ≡ self }
        ensures progress { result.progress ≡ progress }
    {
        Moment {
            stage: self,
            progress,
        }
    }

    // How a heading that is seen upright in the stage is on the deck.
    pub(crate) fn on_deck(self, upright: Heading) -> Heading
        ensures { result ≡ on_deck self upright }
    {
        match self {
            Stage::Rows | Stage::TurnBack => upright.turned(),
            Stage::FirstColumns | Stage::Turn | Stage::LastColumns => upright,
        }
    }
}

// When in a plan: in which stage, and after how many steps of it.
#[derive(Clone, Copy, Debug, PartialEq, Eq)]
pub struct Moment {
    pub stage: Stage,
    pub progress: usize,
}

// How many steps each stage of a plan has.
// Kept as it is: an array by stage would be no plainer, since the definition of each length is one of its own.
#[derive(Clone, Copy, Debug, PartialEq, Eq)]
pub struct Stages {
    pub first_columns: u16,
    pub turn: u16,
    pub rows: u16,
    pub turn_back: u16,
    pub last_columns: u16,
}

impl Stages {
    // The stages of the plan that the routes are.
    pub fn of(routes: &[Route]) -> Stages
        ensures { (height width : ℕ) → Staged (plan_of height width routes.now) result }
    {
        let first = greatest(routes, |route| route.start.row.abs_diff(route.middle_row));
        let across = greatest(routes, |route| route.start.bay.abs_diff(route.goal.bay));
        let last = greatest(routes, |route| route.middle_row.abs_diff(route.goal.row));
        Stages {
            first_columns: steps_of_runs(u16::from(first)),
            turn: steps_of_turn(across),
            rows: steps_of_runs(3 * u16::from(across)),
            turn_back: steps_of_turn(across),
            last_columns: steps_of_runs(u16::from(last)),
        }
    }

    // The plan's length.
    pub fn total(&self) -> usize
        ensures sum { result ≡ total_steps self.now }
        ensures whole { (p : Plan) → Staged p self.now → result ≡ plan_steps p }
    {
        usize::from(self.first_columns)
            + usize::from(self.turn)
            + usize::from(self.rows)
            + usize::from(self.turn_back)
            + usize::from(self.last_columns)
    }

    // The stage that the plan is in after `step` steps, and how many of them are of that stage. Stages without steps
    // are passed over.
    pub fn at(&self, step: usize) -> Moment
        ensures standing { Standing self.now step result.stage result.progress }
        ensures alike { (p : Plan) → Staged p self.now → Alike (whole p) step (motion_of result.stage p) result.progress }
    {
        let turn = usize::from(self.first_columns);
        let rows = turn + usize::from(self.turn);
        let turn_back = rows + usize::from(self.rows);
        let last_columns = turn_back + usize::from(self.turn_back);
        match step {
            t if t < turn => Stage::FirstColumns.after(t),
            t if t < rows => Stage::Turn.after(t - turn),
            t if t < turn_back => Stage::Rows.after(t - rows),
            t if t < last_columns => Stage::TurnBack.after(t - turn_back),
            t => Stage::LastColumns.after(t - last_columns),
        }
    }
}

// The greatest of what is asked of each route, 0 where there is none.
fn greatest<F: Fn(&Route) -> u8>(routes: &[Route], ask: F) -> u8
    requires { (state : F) (route : _) → F.pre state route }
    ensures { (answer : AnyRoute → ℕ) → ((r : AnyRoute) (n : ℕ) → FnReturnsAt F.Fn ask r n → n ≡ answer r) → result ≡ greatest_of answer routes.now }
{
    routes.iter().map(ask).max().unwrap_or(0)
}

// The steps of runs of which the longest goes so far.
fn steps_of_runs(longest: u16) -> u16
    requires { longest < 1000 }
    ensures { result ≡ run_steps longest }
{
    if longest == 0 { 0 } else { longest + 2 }
}

// A turn has two steps, or none where no carrier goes from one bay to another.
fn steps_of_turn(across: u8) -> u16
    ensures { result ≡ (if nat_eq across 0 then 0 else 2) }
{
    if across == 0 { 0 } else { 2 }
}
