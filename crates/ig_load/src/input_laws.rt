//! A law of inputs. The function does nothing: its contract is the law.
ghost use Rattle.ig_load.specs.InputLaws.{InputsAreChains};

/// The input of each size and number is a chain of letters with operators between them. This law
/// computes nothing.
pub fn inputs_are_chains()
    ensures { InputsAreChains }
{}
