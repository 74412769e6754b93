// What each call answers, as text.
use crate::any_deck::{AnyDeck, contacted, make};
use crate::refusal::Refusal;
use crate::words::{entries, number, parts, two};
use deck::Deck;
use floor::record::Floor;
use rules::any::AnyRule;
use rules::fault::RuleFault;
use rules::kind::KindRule;
use rules::number::NumberRule;
use std::alloc::{AllocError, Global};

type Answer = Result<String, Refusal>;

fn done(heap: Global) -> Answer {
    Ok(String::from_str(heap, "ok")?)
}

fn count(heap: Global, number: usize) -> Answer {
    Ok(format!(in heap; "{number}")?)
}

// A word for each carrier.
fn by_carrier<F: Fn(usize) -> Result<String, AllocError>>(
    heap: Global,
    carriers: usize,
    word: F,
) -> Answer
    requires { F.IsAlwaysCallable word }
{
    let mut text = String::new(heap);
    for carrier in 0..carriers {
        if carrier > 0 {
            text.push(' ')?;
        }
        text.push_str(word(carrier)?.as_str())?;
    }
    Ok(text)
}

// The rule of an order: its lists stand after colons.
fn rule(heap: Global, kind: &str, lists: &str) -> Result<AnyRule, Refusal> {
    match kind {
        "number" => Ok(AnyRule::Number(NumberRule::new(entries(heap, lists)?)?)),
        "kind" => {
            let (kinds, masks) = lists.split_once(':').ok_or(RuleFault::BadEntry)?;
            let kinds = entries(heap, kinds)?;
            let masks = entries(heap, masks)?;
            Ok(AnyRule::Kind(KindRule::new(kinds, masks)?))
        }
        _ => Err(Refusal::from(RuleFault::BadEntry)),
    }
}

// Zero marks; the first is one where they are to be dirty.
fn marks(heap: Global, words: &str) -> Result<Vec<u8>, Refusal> {
    let (many, dirty) = match words.split_once(' ') {
        Some((many, "dirty")) => (many, true),
        _ => (words, false),
    };
    let mut marks = vec![in heap; 0u8; number(many)?]?;
    if dirty && let Some(first) = marks.first_mut() {
        *first = 1;
    }
    Ok(marks)
}

// A deck, and the floor that is open over it.
#[derive(Drop)]
struct Stage {
    heap: Global,
    deck: AnyDeck,
    floor: Option<Floor>,
}

impl Stage {
    // deck KIND h w
    fn new(heap: Global, rest: &str) -> Result<Stage, Refusal> {
        let (kind, sides) = parts(rest, ' ')?;
        let (height, width) = two(sides)?;
        let deck = make(heap, kind, height, width)?;
        Ok(Stage {
            heap,
            deck,
            floor: None,
        })
    }

    // contact open    or    contact closed
    fn contacted(self, rest: &str) -> Stage {
        let Stage { heap, deck, floor } = self;
        Stage {
            heap,
            deck: contacted(deck, rest == "closed"),
            floor,
        }
    }

    // open h w
    fn open(&mut self, rest: &str) -> Answer {
        let (height, width) = two(rest)?;
        self.floor = Some(Floor::open(self.heap, &self.deck, height, width)?);
        done(self.heap)
    }

    // Row and column of each carrier.
    fn places(&self) -> Answer {
        let heap = self.heap;
        by_carrier(heap, self.deck.carriers(), |carrier| {
            match self.deck.place(carrier) {
                Some(square) => format!(in heap; "{},{}", square.row, square.column),
                None => Ok(String::new(heap)),
            }
        })
    }

    // The number of each carrier's heading.
    fn headings(&self) -> Answer {
        let heap = self.heap;
        by_carrier(heap, self.deck.carriers(), |carrier| {
            match self.deck.heading(carrier) {
                Some(heading) => format!(in heap; "{}", heading.number()),
                None => Ok(String::new(heap)),
            }
        })
    }

    // steer C D, by the deck's owner
    fn steer(&mut self, rest: &str) -> Answer {
        let (carrier, heading) = two(rest)?;
        let heading = u8::try_from(heading).unwrap_or(u8::MAX);
        self.deck.steer(carrier, heading)?;
        done(self.heap)
    }

    fn go(&mut self) -> Answer {
        self.deck.go()?;
        done(self.heap)
    }

    // The calls on a deck.
    fn answer(&mut self, call: &str, rest: &str) -> Answer {
        match call {
            "open" => self.open(rest),
            "places" => self.places(),
            "headings" => self.headings(),
            "steer" => self.steer(rest),
            "go" => self.go(),
            _ => self.on_floor(call, rest),
        }
    }

    // The calls on an open floor.
    fn on_floor(&mut self, call: &str, rest: &str) -> Answer {
        let heap = self.heap;
        let Some(floor) = &mut self.floor else {
            return Err(Refusal::NoFloor);
        };
        match call {
            "order" => order(heap, rest, &self.deck, floor),
            "step" => count(heap, floor.step(&mut self.deck)?),
            "back" => count(heap, floor.back(&mut self.deck)?),
            "look" => look(heap, &*floor),
            "line" => line(heap, rest, &*floor),
            _ => Err(Refusal::Malformed),
        }
    }
}

// order number M : e ..    or    order kind M : k .. : m ..
fn order(heap: Global, rest: &str, deck: &AnyDeck, floor: &mut Floor) -> Answer {
    let (head, lists) = parts(rest, ':')?;
    let (kind, many) = parts(head.trim(), ' ')?;
    let mut marks = marks(heap, many)?;
    let rule = rule(heap, kind, lists)?;
    count(heap, floor.order(deck, &rule, &mut marks)?)
}

// line AT LEN
fn line(heap: Global, rest: &str, floor: &Floor) -> Answer {
    let (at, long) = two(rest)?;
    let mut buffer = vec![in heap; b'x'; long]?;
    floor.line(&mut buffer, at)?;
    let text = buffer
        .iter()
        .map(|byte| if *byte == b'\n' {
            '/'
        } else {
            char::from(*byte)
        })
        .collect(heap)?;
    Ok(text)
}

fn look(heap: Global, floor: &Floor) -> Answer {
    let look = floor.look();
    Ok(format!(in heap; "{} {} {}", look.steps_done, look.length, look.orders)?)
}

// The calls so far, on the deck of the last call that made one.
#[derive(Drop)]
pub(crate) struct Play {
    heap: Global,
    stage: Option<Stage>,
}

impl Play {
    pub(crate) fn new(heap: Global) -> Play {
        Play { heap, stage: None }
    }

    fn contact(&mut self, rest: &str) -> Answer {
        let Some(stage) = self.stage.take() else {
            return Err(Refusal::NoDeck);
        };
        self.stage = Some(stage.contacted(rest));
        done(self.heap)
    }

    // What a call answers.
    pub(crate) fn answer(&mut self, line: &str) -> Answer {
        let (call, rest) = line.split_once(' ').unwrap_or((line, ""));
        match call {
            "deck" => {
                self.stage = Some(Stage::new(self.heap, rest)?);
                done(self.heap)
            }
            "contact" => self.contact(rest),
            _ => match &mut self.stage {
                Some(stage) => stage.answer(call, rest),
                None => Err(Refusal::NoDeck),
            },
        }
    }
}
