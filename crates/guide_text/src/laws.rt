// Laws of what is printed.
ghost use Rattle.guide_text.specs.Laws.{DetailsReadBack};

/// The digits of a printed descriptor are read back as the bytes that stand in its loop (EN 300 468, 6.1).
pub fn details_read_back()
    ensures { DetailsReadBack }
{}
