// What holds of the airing list of a journal.
ghost use Rattle.journal_air.specs.Laws.{AiringsCanBeHeard, AiringsAreCounted, AiringsHaveFewKeys};

/// Each airing of a legal journal can be sent and heard. Receivers count all tables that it carries.
pub fn airings_can_be_heard()
    ensures heard { AiringsCanBeHeard }
    ensures counted { AiringsAreCounted }
{}

/// All airings of a journal together carry at most 2,258 keys.
pub fn airings_have_few_keys()
    ensures { AiringsHaveFewKeys }
{}
