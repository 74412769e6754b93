ghost use Rattle.rules.specs.Entries.{GoodKinds};

// What the rule does.
pub mod acts;

// How many kinds of lens there are.
// Kept as it is: a kind is a number from 0 to 15 in every record, and its place in a mask; names would say no more.
pub const KINDS: u8 = 16;

// The kind rule: each carrier has a kind, and each slot a mask with a bit for each kind, bit 0 the lowest. A slot
// admits a carrier when the bit of its kind is one.
#[derive(Drop)]
pub struct KindRule {
    kinds: Vec<u8>,
    masks: Vec<u16>,
    ghost good: { GoodKinds kinds.items },
}
