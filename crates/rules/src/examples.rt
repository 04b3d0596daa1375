//! The worked examples of the rules, as a contract over the definitions that all contracts cite.
ghost use Rattle.rules.specs.Examples.{Examples};

pub fn examples_stand()
    ensures { Examples }
{}
