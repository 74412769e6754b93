ghost use Rattle.std.specs.Prelude.{◌≡◌, []};
ghost use Rattle.roster.specs.Rosters.{roster_view};
ghost use Rattle.floor.specs.Shown.{shown as floor-shown};
ghost use Rattle.orderfile.specs.Records.{GoodOrder};
ghost use Rattle.orderfile.specs.Orders.{shown as order-shown};
ghost use Rattle.script.specs.Lines.{refused_line_bytes};
ghost use Rattle.scripting.specs.Scripts.{ScriptFor, ScriptOf};
ghost use Rattle.scripting.specs.Theorems.{ScriptIsFixed};
ghost use Rattle.scripting.specs.Refusals.{answer_text};
ghost use Rattle.scripting.specs.Texts.{script_text};
ghost use Rattle.scripting.specs.Writing.{page_account};

use crate::page::{Page, Phase};
use crate::refusal::Refusal;
use crate::writer::{ScriptWriter, Task};
use arrayvec::ArrayString;
use chain::fault::FloorFault;
use floor::record::Floor;
use motion::longest_plan;
use orderfile::order::Order;
use orderfile::read::read;
use roster::Roster;
use script::lines::{LONGEST, refused_line};
use serve::serve;
use std::alloc::Global;
use std::marker::Brand;
use std::str;

// A script: the first line and the lines of the steps, or the line of a refusal. That stands in fixed room, so that want of
// memory can be told without memory.
// Kept as it is: a Result would be no plainer, since a refusal is a script too and is written like any other.
#[derive(Drop)]
pub enum Script {
    Steps(Vec<u8>),
    Refused(ArrayString<LONGEST>),
}

impl Script {
    // The script of an order record, carried out over a new roster. There is no other, but `refused 47`.
    pub fn of_record(heap: Global, bytes: &[u8]) -> Script
        ensures script { ScriptOf bytes.now (script_text result) }
        ensures fixed { ScriptIsFixed }
    {
        match steps_of_record(heap, bytes) {
            Ok(text) => Script::Steps(text),
            Err(refusal) => Script::Refused(refusal_text(refusal.number())),
        }
    }

    pub fn bytes(&self) -> &[u8]
        ensures { result.now ≡ script_text self.now }
    {
        match self {
            Script::Steps(text) => text.as_slice(),
            Script::Refused(line) => line.as_str().as_bytes(),
        }
    }
}

// The line of the refusal with this number, as its call writes it.
fn refusal_text(number: u8) -> ArrayString<LONGEST>
    ensures { result.bytes ≡ refused_line_bytes number }
{
    let mut bytes = [0; LONGEST];
    let count = refused_line(&mut bytes, 0, number).unwrap();
    let mut line = ArrayString::new();
    line.push_str(str::from_utf8(&bytes[..count]).unwrap());
    line
}

fn steps_of_record(heap: Global, bytes: &[u8]) -> Result<Vec<u8>, Refusal>
    ensures { ScriptOf bytes.now (answer_text result) }
{
    let order = read(heap, bytes)?;
    steps_of_order::<Brand>(heap, order)
}

fn steps_of_order<K: Task>(heap: Global, order: Order) -> Result<Vec<u8>, Refusal>
    requires good { GoodOrder K.order }
    requires order { order-shown order ≡ K.order }
    ensures { ScriptFor K.order (answer_text result) }
{
    let sides = order.sides;
    let writer = ScriptWriter::<K>::new(heap, order)?;
    let deck = Roster::upright(heap, sides.height, sides.width)?;
    let floor = Floor::open(heap, &deck, sides.height, sides.width)?;
    played::<K>(writer, floor, deck)
}

// Plays the writer's calls to the end.
fn played<K: Task>(
    mut writer: ScriptWriter<K>,
    mut floor: Floor,
    mut deck: Roster,
) -> Result<Vec<u8>, Refusal>
    requires { page_account K.order writer.page (floor-shown floor) (roster_view deck) [] }
    ensures { ScriptFor K.order (answer_text result) }
{
    // the order, a step for each move of the plan, and the end
    let budget = longest_plan(writer.page.sides) + 2;
    let _ = serve(&mut floor, &mut deck, &mut writer, budget);
    let Page {
        phase,
        mut text,
        used,
        ..
    } = writer.page;
    match phase {
        Phase::Over => {
            text.truncate(used);
            Ok(text)
        }
        Phase::Refused(fault) => Err(Refusal::Floor(fault)),
        // The order's answer was not told. It always is, but what serve promises leaves that open.
        Phase::Ordering | Phase::Writing | Phase::Stepping => {
            Err(Refusal::Floor(FloorFault::NoMemory))
        }
    }
}
