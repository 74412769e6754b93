ghost use Rattle.rules.specs.Entries.{GoodWanted};

// What the rule does.
pub mod acts;

// The number rule: each slot names the one carrier that it wants, out of as many carriers as there are slots. One
// may be named twice.
#[derive(Drop)]
pub struct NumberRule {
    wanted: Vec<u16>,
    ghost good: { GoodWanted wanted.items },
}
