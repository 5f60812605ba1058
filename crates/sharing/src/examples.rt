// Worked examples of the two rules.
ghost use Rattle.sharing.specs.Examples.{Examples};

// The worked examples hold of the rules' definitions.
pub fn examples_hold()
    ensures { Examples }
{}
