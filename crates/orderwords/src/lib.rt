// An order in words, for a planner to read.
//
// For: the program orderinfo. Promises: every byte of the text is the one that specs/Words.antt gives for the
// order. Rests on: grid, rules, orderfile.
#![tactic(auto)]

ghost use Rattle.std.specs.Prelude.{◌≡◌, IfOk, Some, string_bytes};
ghost use Rattle.rules.specs.AnyRule.{any_meaning};
ghost use Rattle.orderwords.specs.Words.{carriers_text, slot_text, slots_text, rule_text, order_text};

use orderfile::order::Order;
use rules::Rule;
use rules::any::AnyRule;
use std::alloc::{AllocError, Global};
use std::fmt;

// The carriers that will do in a slot, each after a space.
#[derive(Clone, Copy)]
struct Carriers<'a> {
    rule: &'a AnyRule,
    slot: usize,
}

impl fmt::Display for Carriers<'_> {
    ghost output = { λ c. Some (carriers_text ((any_meaning c.rule.now).admits c.slot) (any_meaning c.rule.now).carriers) };

    fn fmt<W: fmt::Write>(&self, f: &mut fmt::Formatter<W>) -> fmt::Result {
        for carrier in 0..self.rule.carriers() {
            let will_do = self.rule.admits(self.slot, carrier);
            if will_do {
                write!(f, " {carrier}")?;
            }
        }
        Ok(())
    }
}

// A slot's line.
#[derive(Clone, Copy)]
struct SlotLine<'a> {
    order: &'a Order,
    slot: usize,
}

impl fmt::Display for SlotLine<'_> {
    ghost output = { λ l. Some (slot_text (any_meaning l.order.now.rule) l.order.now.sides.width l.slot) };

    fn fmt<W: fmt::Write>(&self, f: &mut fmt::Formatter<W>) -> fmt::Result {
        let SlotLine { order, slot } = *self;
        let row = slot / order.sides.width;
        let bay = slot % order.sides.width;
        let carriers = Carriers {
            rule: &order.rule,
            slot,
        };
        writeln!(f, "slot {slot} (row {row}, bay {bay}):{carriers}")
    }
}

// A line for each slot.
#[derive(Clone, Copy)]
struct SlotLines<'a>(&'a Order);

impl fmt::Display for SlotLines<'_> {
    ghost output = { λ l. Some (slots_text (any_meaning l.0.now.rule) l.0.now.sides.width (any_meaning l.0.now.rule).slots) };

    fn fmt<W: fmt::Write>(&self, f: &mut fmt::Formatter<W>) -> fmt::Result {
        for slot in 0..self.0.rule.slots() {
            let line = SlotLine {
                order: self.0,
                slot,
            };
            write!(f, "{line}")?;
        }
        Ok(())
    }
}

// What an order asks for: the floor, the rule, and slot by slot which carriers will do.
pub fn order_words(heap: Global, order: &Order) -> Result<String, AllocError>
    ensures { IfOk result (λ t. string_bytes t ≡ order_text order.now) }
{
    let height = order.sides.height;
    let width = order.sides.width;
    let slots = order.sides.slots();
    let rule = match &order.rule {
        AnyRule::Number(_) => "number",
        AnyRule::Kind(_) => "kind",
    };
    let lines = SlotLines(order);
    format!(in heap; "floor of {height} by {width} cells, {slots} slots, {rule} rule\n{lines}")
}
