ghost use Rattle.std.specs.Prelude.{◌≡◌, ℕ, ◌+◌, ◌*◌, ◌/◌, ◌%◌};
ghost use Rattle.grid.specs.Headings.{opposite};
ghost use Rattle.motion.specs.Runs.{turn_heading};
ghost use Rattle.motion.specs.Plans.{Plan, whole};
ghost use Rattle.course.specs.Routes.{HasRoute};
ghost use Rattle.course.specs.Stages.{heading_when, place_when, Staged};
ghost use Rattle.course.specs.Upright.{run_from, run_to};

use crate::run::{Run, turn_square};
use crate::stage::{Moment, Stage, Stages};
use grid::heading::Heading;
use grid::slot::Slot;
use grid::square::Square;

// A carrier's part of a plan. A plan is a slice of routes, one for each carrier.
#[derive(Clone, Copy, Debug, PartialEq, Eq)]
pub struct Route {
    pub start: Slot,
    pub middle_row: u8,
    pub goal: Slot,
}

impl Route {
    // The carrier's heading at a moment.
    pub fn heading(&self, moment: Moment) -> Heading
        ensures { (p : Plan) (c : ℕ) → HasRoute p c self.now → result ≡ heading_when moment p c }
    {
        let Moment { stage, progress } = moment;
        let run = self.run(stage);
        let upright = match (stage, progress) {
            (Stage::Turn | Stage::TurnBack, p) => self.turns(p),
            (_, _) if run.is_still() => Heading::Stay,
            (_, 0) => run.aside(),
            (_, p) if p <= run.distance() => run.along(),
            (_, p) if p == run.distance() + 1 => run.back(),
            (_, _) => Heading::Stay,
        };
        stage.on_deck(upright)
    }

    // The heading that undoes the step which the carrier makes at a moment.
    pub fn heading_back(&self, moment: Moment) -> Heading
        ensures { (p : Plan) (c : ℕ) → HasRoute p c self.now → result ≡ opposite (heading_when moment p c) }
    {
        self.heading(moment).opposite()
    }

    // The carrier's square at a moment.
    pub fn place(&self, moment: Moment) -> Square
        ensures { (p : Plan) (c : ℕ) → HasRoute p c self.now → result ≡ place_when moment p c }
    {
        let Moment { stage, progress } = moment;
        match stage {
            Stage::FirstColumns => self.first_columns().square(self.start.bay, progress),
            Stage::Turn => turn_square(self.start.bay, u16::from(self.middle_row), progress),
            Stage::Rows => self.rows().square(self.middle_row / 3, progress).turned(),
            Stage::TurnBack => turn_square(
                self.middle_row / 3,
                self.goal_column(),
                progress,
            ).turned(),
            Stage::LastColumns => self.last_columns().square(self.goal.bay, progress),
        }
    }

    // The carrier's heading after `step` steps of the plan with these stages.
    pub fn heading_at(&self, stages: &Stages, step: usize) -> Heading
        ensures { (p : Plan) (c : ℕ) → HasRoute p c self.now → Staged p stages.now → result ≡ (whole p).heading step c }
    {
        self.heading(stages.at(step))
    }

    // The heading that undoes the step which the carrier makes after `step` steps of the plan with these stages.
    pub fn heading_back_at(&self, stages: &Stages, step: usize) -> Heading
        ensures { (p : Plan) (c : ℕ) → HasRoute p c self.now → Staged p stages.now → result ≡ opposite ((whole p).heading step c) }
    {
        self.heading_back(stages.at(step))
    }

    // The carrier's square after `step` steps of the plan with these stages.
    pub fn place_at(&self, stages: &Stages, step: usize) -> Square
        ensures { (p : Plan) (c : ℕ) → HasRoute p c self.now → Staged p stages.now → result ≡ (whole p).place step c }
    {
        self.place(stages.at(step))
    }

    // The stage's run, seen upright; in a turn there is none, so nowhere to go.
    // Kept as it is: an `Option` would add a case to the match in `heading`, whose form is fixed.
    fn run(&self, stage: Stage) -> Run
        ensures from { result.from ≡ run_from stage self.now }
        ensures to { result.to ≡ run_to stage self.now }
    {
        match stage {
            Stage::FirstColumns => self.first_columns(),
            Stage::Rows => self.rows(),
            Stage::LastColumns => self.last_columns(),
            Stage::Turn | Stage::TurnBack => {
                let row = u16::from(self.middle_row);
                Run { from: row, to: row }
            }
        }
    }

    fn first_columns(&self) -> Run
        ensures from { result.from ≡ self.now.start.row }
        ensures to { result.to ≡ self.now.middle_row }
    {
        Run {
            from: u16::from(self.start.row),
            to: u16::from(self.middle_row),
        }
    }

    // The run from bay to bay, seen upright.
    fn rows(&self) -> Run
        ensures from { result.from ≡ 3 * self.now.start.bay + self.now.middle_row % 3 }
        ensures to { result.to ≡ 3 * self.now.goal.bay + self.now.middle_row % 3 }
    {
        let third = u16::from(self.middle_row % 3);
        Run {
            from: 3 * u16::from(self.start.bay) + third,
            to: self.goal_column(),
        }
    }

    fn last_columns(&self) -> Run
        ensures from { result.from ≡ self.now.middle_row }
        ensures to { result.to ≡ self.now.goal.row }
    {
        Run {
            from: u16::from(self.middle_row),
            to: u16::from(self.goal.row),
        }
    }

    // The heading in a turn, seen upright.
    fn turns(&self, progress: usize) -> Heading
        ensures { result ≡ turn_heading self.now.middle_row progress }
    {
        match (self.middle_row % 3, progress) {
            (1, _) => Heading::Stay,
            (0, 0) => Heading::Left,
            (_, 0) => Heading::Right,
            (0, _) => Heading::Down,
            (_, _) => Heading::Up,
        }
    }

    // The column in which the carrier's run along its row ends.
    fn goal_column(&self) -> u16
        ensures { result ≡ 3 * self.now.goal.bay + self.now.middle_row % 3 }
    {
        3 * u16::from(self.goal.bay) + u16::from(self.middle_row % 3)
    }
}
