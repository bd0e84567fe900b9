// What was worked out by hand is what the definitions tell.
#![tactic(auto)]

ghost use Rattle.worked_examples.specs.Examples.{Examples};

pub fn examples_stand() -> u8
    ensures { Examples }
{
    0
}
