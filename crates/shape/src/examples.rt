// The worked examples, as a theorem.
ghost use Rattle.shape.specs.Examples.{Every, examples};

// Does nothing; its contract is that each of the worked examples holds of the definitions.
pub fn examples_hold()
    ensures { Every examples }
{}
