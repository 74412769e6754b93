// Whoever writes a script: it makes the order, and then steps to the end.
ghost use Rattle.std.specs.Prelude.{◌≡◌, IfOk};
ghost use Rattle.std.specs.Option.{ForSome};
ghost use Rattle.orderfile.specs.Records.{OrderView, GoodOrder};
ghost use Rattle.orderfile.specs.Orders.{shown as order-shown};
ghost use Rattle.scripting.specs.Asking.{Asks};
ghost use Rattle.scripting.specs.Writing.{Fresh, page_account, page_chosen, Closed};

use crate::page::{Page, Phase, write_first_line, write_step};
use chain::fault::FloorFault;
use floor::record::Floor;
use motion::longest_plan;
use orderfile::order::Order;
use roster::Roster;
use rules::any::AnyRule;
use script::lines::LONGEST;
use serve::{Call, Source};
use std::alloc::{AllocError, Global};
use std::marker::{Brand, PhantomData};

// The order whose script is written. Each call picks it.
pub(crate) trait Task {
    ghost order: { OrderView };
}

impl Task for Brand {
    ghost use Rattle.std.specs.Prelude.{[]};
    ghost use Rattle.orderfile.specs.Records.{numbers};

    ghost order = { record { height = 1; width = 1; lists = numbers [] } };
}

// An order that is yet to be made.
#[derive(Drop)]
pub(crate) struct Pending {
    rule: AnyRule,
    marks: Vec<u8>,
}

// Orders once and then steps to the end, and writes each step as a line before it is made.
#[derive(Drop)]
pub(crate) struct ScriptWriter<K: Task> {
    // Kept as it is: the account speaks of the page alone, whose phase is copied, so what is pending stands beside it.
    pending: Option<Pending>,
    pub(crate) page: Page,
    of: PhantomData<K>,
    ghost asks: { ForSome pending (λ p. Asks K.order p) },
}

impl<K: Task> ScriptWriter<K> {
    // With room for the longest script that an order for these sides can have.
    pub(crate) fn new(heap: Global, order: Order) -> Result<ScriptWriter<K>, AllocError>
        requires good { GoodOrder K.order }
        requires order { order-shown order ≡ K.order }
        ensures { IfOk result (λ w. Fresh w.page K.order) }
    {
        let Order { sides, rule } = order;
        let marks = vec![in heap; 0u8; sides.slots()]?;
        let room = longest_plan(sides) * (sides.slots() + 1) + LONGEST;
        let text = vec![in heap; 0u8; room]?;
        Ok(ScriptWriter {
            pending: Some(Pending { rule, marks }),
            page: Page {
                sides,
                phase: Phase::Ordering,
                text,
                used: 0,
            },
            of: PhantomData,
        })
    }
}

impl<K: Task> Source<Roster> for ScriptWriter<K> {
    ghost account = { λ w f v es. page_account K.order w.page f v es };

    ghost chosen = { λ w choice. page_chosen K.order w.page choice };

    ghost over = { λ w. Closed w.pending w.page.phase };

    fn next(&mut self, floor: &Floor, _deck: &mut Roster) -> Option<Call> {
        match self.page.phase {
            Phase::Ordering => {
                // none is pending where its answer was not told
                let Pending { rule, marks } = self.pending.take()?;
                Some(Call::Order(rule, marks))
            }
            Phase::Writing => match write_step(floor, &mut self.page.text, self.page.used) {
                Ok(count) => {
                    self.page.used += count;
                    self.page.phase = Phase::Stepping;
                    Some(Call::Step)
                }
                Err(_) => {
                    self.page.phase = Phase::Over;
                    None
                }
            },
            // its line is written
            Phase::Stepping => Some(Call::Step),
            Phase::Over | Phase::Refused(_) => None,
        }
    }

    fn ordered(
        &mut self,
        _floor: &Floor,
        _deck: &Roster,
        _rule: &AnyRule,
        _marks: &[u8],
        answer: Result<usize, FloorFault>,
    ) {
        // Kept as it is: the account tells an order that is refused from a line without room, so each has an arm of its own.
        match answer {
            Ok(steps) => match write_first_line(&mut self.page.text, self.page.sides, steps) {
                Ok(count) => {
                    self.page.used = count;
                    self.page.phase = Phase::Writing;
                }
                Err(fault) => self.page.phase = Phase::Refused(fault),
            },
            Err(fault) => self.page.phase = Phase::Refused(fault),
        }
    }

    fn stepped(&mut self, _floor: &Floor, _deck: &Roster, answer: Result<usize, FloorFault>) {
        match answer {
            Ok(_) => self.page.phase = Phase::Writing,
            Err(fault) => self.page.phase = Phase::Refused(fault),
        }
    }

    fn backed(&mut self, _floor: &Floor, _deck: &Roster, answer: Result<usize, FloorFault>) {
        if let Err(fault) = answer {
            self.page.phase = Phase::Refused(fault);
        }
    }
}
