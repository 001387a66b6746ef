//! Laws of what a listing shows. The functions are empty: their contracts are laws.
ghost use Rattle.bh_listing.specs.Laws.{SomeShown, ShownOnce, AllShown};

/// All bytes show some number of bytes of content, and one alone.
pub fn one_number_is_shown()
    ensures some { SomeShown }
    ensures once { ShownOnce }
{}

/// A whole listing shows all of the content.
pub fn a_listing_shows_all()
    ensures { AllShown }
{}
