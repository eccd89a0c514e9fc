//! What holds of commands. The functions do nothing: their contracts are the laws.
ghost use Rattle.ig_command.specs.Laws.{BatchNumbersAreSome, LoadSizesAreFew, OrdersAskTheSame};

/// A load that words ask for is no larger than [`MOST_SIZE`](crate::MOST_SIZE). This law computes
/// nothing.
pub fn load_sizes_are_few()
    ensures { LoadSizesAreFew }
{}

/// A batch that words ask for has a budget and turns from 1 on, up to their greatest. This law
/// computes nothing.
pub fn batch_numbers_are_some()
    ensures { BatchNumbersAreSome }
{}

/// Commands that differ in the option `--order` alone ask for the same. This law computes nothing.
pub fn orders_ask_the_same()
    ensures { OrdersAskTheSame }
{}
