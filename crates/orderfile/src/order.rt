use grid::sides::Sides;
use rules::any::AnyRule;

// An order: the floor that it is for, and its rule.
#[derive(Drop)]
pub struct Order {
    pub sides: Sides,
    pub rule: AnyRule,
}
