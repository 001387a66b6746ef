//! Laws. The functions are empty: their contracts are what is proved.
ghost use Rattle.h1_head.specs.Laws.{ReadsAlike, WrittenIsHead, ReadBack, OneStep};

/// What `httparse` reads as a section with CR LF at each line's end is a section of the definitions, and the other way round.
pub fn reads_alike()
    ensures { ReadsAlike }
{}

/// A head that can be written is a head again when it is.
pub fn written_is_a_head()
    ensures { WrittenIsHead }
{}

/// What is written is parsed back to the same start and fields, unless memory runs out.
pub fn read_back()
    ensures { ReadBack }
{}

/// A reader has one right step.
pub fn one_step()
    ensures { OneStep }
{}
