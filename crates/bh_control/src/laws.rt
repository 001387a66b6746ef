//! Laws about the definitions. Each function is empty: its contract is the law.
ghost use Rattle.bh_control.specs.Laws.{OneControl, OneNextPart, BegunIsControlData, SameFromTheBeginning};

/// Bytes are the text of one control data at most, whatever the limits.
pub fn one_control()
    ensures { OneControl }
{}

/// All longer texts that begin with some bytes have one part there, whatever the limits.
pub fn one_next_part()
    ensures { OneNextPart }
{}

/// At the beginning what completes the control data is the control data itself, whatever the limits.
pub fn begun_is_control_data()
    ensures { BegunIsControlData }
{}

/// What a reader says of a piece from its state, it says of all bytes since the control data began and of the piece.
pub fn same_from_the_beginning()
    ensures { SameFromTheBeginning }
{}
