// Plays calls on a floor, as any source chooses them.
//
// For: programs that play orders and moves. Promises: what the source is told, call by call, is a chain of calls on that
// floor and deck, so all that is promised of every chain holds of it; and whatever the source's own account keeps from
// call to call holds at the end. Rests on: grid, deck, rules, chain, floor.
#![tactic(auto)]

ghost use Rattle.std.specs.Prelude.{List, ◌∷◌, MatchOption};
ghost use Rattle.deck.specs.Decks.{DeckView, SameFloor, Unmoved};
ghost use Rattle.rules.specs.AnyRule.{any_meaning};
ghost use Rattle.chain.specs.Floors.{FloorView};
ghost use Rattle.chain.specs.Calls.{Ordered, Stepped, Backed};
ghost use Rattle.chain.specs.Sheets.{Event};
ghost use Rattle.floor.specs.Shown.{shown};
ghost use Rattle.serve.specs.Choices.{Choice};
ghost use Rattle.serve.specs.Chosen.{Chooses};
ghost use Rattle.serve.specs.Served.{Told, Served};

use chain::fault::FloorFault;
use deck::Deck;
use floor::record::Floor;
use rules::any::AnyRule;

// A call, an order with its own rule and marks.
#[derive(Drop)]
pub enum Call {
    Order(AnyRule, Vec<u8>),
    Step,
    Back,
}

// How playing ended: the source stopped, or as many calls as it was given were made.
#[derive(Clone, Copy, PartialEq, Eq, Debug)]
pub enum Ending {
    Stopped,
    Spent,
}

// Whoever chooses the calls, and is told each answer.
// Kept as it is: one method for all three answers would be no plainer, since each source would match on the call again.
pub trait Source<D: Deck> {
    // What the source keeps true of the record, the deck and the events so far, the newest first.
    ghost account: { Self → FloorView → DeckView → List Event → Type 0 };

    // What it has chosen to call next.
    ghost chosen: { Self → Choice → Type 0 };

    // What holds of it when it has stopped.
    ghost over: { Self → Type 0 };

    // The next call, or none to stop. The source may look at the floor, and do with the deck what moves no carrier.
    fn next(&mut self, floor: &Floor, deck: &mut D) -> Option<Call>
        ensures floor { SameFloor (D.Deck.view deck.old) (D.Deck.view deck.new) }
        ensures still { Unmoved (D.Deck.view deck.old) (D.Deck.view deck.new) }
        ensures kept { (es : List Event) → account self.old (shown floor.now) (D.Deck.view deck.old) es → account self.new (shown floor.now) (D.Deck.view deck.new) es }
        ensures chooses { MatchOption result (over self.new) (Chooses (chosen self.new)) };

    // An order was made of this rule and these marks.
    fn ordered(
        &mut self,
        floor: &Floor,
        deck: &D,
        rule: &AnyRule,
        marks: &[u8],
        answer: Result<usize, FloorFault>,
    )
        ensures { (f : FloorView) (es : List Event) → account self.old f (D.Deck.view deck.now) es → chosen self.old (Choice.order (any_meaning rule.now) marks.now) → Ordered f (D.Deck.view deck.now) (any_meaning rule.now) marks.now answer (shown floor.now) → account self.new (shown floor.now) (D.Deck.view deck.now) (Event.order (any_meaning rule.now) marks.now answer ∷ es) };

    fn stepped(&mut self, floor: &Floor, deck: &D, answer: Result<usize, FloorFault>)
        ensures { (f : FloorView) (v : DeckView) (es : List Event) → account self.old f v es → chosen self.old Choice.step → Stepped f v answer (shown floor.now) (D.Deck.view deck.now) → account self.new (shown floor.now) (D.Deck.view deck.now) (Event.step answer ∷ es) };

    fn backed(&mut self, floor: &Floor, deck: &D, answer: Result<usize, FloorFault>)
        ensures { (f : FloorView) (v : DeckView) (es : List Event) → account self.old f v es → chosen self.old Choice.back → Backed f v answer (shown floor.now) (D.Deck.view deck.now) → account self.new (shown floor.now) (D.Deck.view deck.now) (Event.back answer ∷ es) };
}

// Makes a call that the source has chosen, and tells it the answer.
fn make_call<D: Deck, S: Source<D>>(floor: &mut Floor, deck: &mut D, calls: &mut S, call: Call)
    requires { Chooses (S.Source.chosen calls.old) call }
    ensures { Told (shown floor.old) (D.Deck.view deck.old) (S.Source.account calls.old) (shown floor.new) (D.Deck.view deck.new) (S.Source.account calls.new) }
{
    match call {
        Call::Order(rule, mut marks) => {
            let answer = floor.order(deck, &rule, &mut marks);
            calls.ordered(floor, deck, &rule, &marks, answer);
        }
        Call::Step => {
            let answer = floor.step(deck);
            calls.stepped(floor, deck, answer);
        }
        Call::Back => {
            let answer = floor.back(deck);
            calls.backed(floor, deck, answer);
        }
    }
}

// At most `budget` calls, as the source chooses them.
pub fn serve<D: Deck, S: Source<D>>(
    floor: &mut Floor,
    deck: &mut D,
    calls: &mut S,
    budget: usize,
) -> Ending
    ensures { Served (shown floor.old) (D.Deck.view deck.old) (S.Source.account calls.old) (shown floor.new) (D.Deck.view deck.new) (S.Source.account calls.new) (S.Source.over calls.new) budget result }
{
    for _ in 0..budget {
        let Some(call) = calls.next(floor, deck) else {
            return Ending::Stopped;
        };
        make_call(floor, deck, calls, call);
    }
    Ending::Spent
}
