//! Laws of the answer for an input. The functions are empty: their contracts are the laws.
ghost use Rattle.bh_decode.specs.Laws.{OneAnswer, SomeAnswer, PrefixesAreViable, FirstRefusedByte};

/// What is viable has viable prefixes alone.
pub fn prefixes_are_viable()
    ensures { PrefixesAreViable }
{}

/// An input has one answer under the limits.
pub fn one_answer()
    ensures { OneAnswer }
{}

/// No input is without an answer under the limits.
pub fn some_answer()
    ensures { SomeAnswer }
{}

/// The first refused byte doesn't depend on the bytes behind it.
pub fn first_refused_byte()
    ensures { FirstRefusedByte }
{}
