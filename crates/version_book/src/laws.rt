// Laws of versions, and of what a version book keeps.
ghost use Rattle.version_book.specs.Laws.{NeighboursAgree, AnotherBetween, KeptOnce, KeptWasCarried};

/// What versions tell of contents: next to each other in what a key carries, equal versions have equal
/// contents, and between two contents that differ under one version stands one with another version.
pub fn versions_tell_contents()
    ensures neighbours { NeighboursAgree }
    ensures between { AnotherBetween }
{}

/// What a book keeps, in the order of its keys, is determined by the airings that it stands for.
pub fn books_keep_the_same()
    ensures { KeptOnce }
{}

/// Each content that a book keeps is one that its key was aired with.
pub fn books_keep_what_was_carried()
    ensures { KeptWasCarried }
{}
