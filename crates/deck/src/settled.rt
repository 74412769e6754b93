// What the meaning of go comes to.
ghost use Rattle.deck.specs.Settled.{GoIsSettled};

// The view before a go settles its answer: no two refusals fit, and none fits where it is accepted.
pub fn go_is_settled()
    ensures { GoIsSettled }
{}
