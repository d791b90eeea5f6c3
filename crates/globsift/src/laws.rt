//! A law of the output, as the contract of a function with an empty body.

ghost use Rattle.globsift.specs.Laws.{PartsOfInput};

/// An input can be cut after any LF: the outputs for the parts, in order, are the output for the whole. So parts of a large input
/// can be given to programs that run at the same time.
pub fn parts_of_input()
    ensures { PartsOfInput }
{}
