// Laws of edits, and of the items of a script.
ghost use Rattle.script_lines.specs.EditFields.{EditsReadBack};
ghost use Rattle.script_lines.specs.Laws.{EditsAheadAreTyped, EditsGoOn, ItemsAreInWindow, ItemsAreTyped, ItemsGoOn, ReadEditsAreTyped};

/// The edits ahead of a reader are the first, as [`crate::next_edit`] reads it, and then those of what is ahead behind it.
pub fn edits_go_on()
    ensures { EditsGoOn }
{}

/// The fields of an edit's line, and of the item lines of a day, read back as the edit.
pub fn edits_read_back()
    ensures { EditsReadBack }
{}

/// Each edit that is read has numbers as wide as their fields, and texts that may be kept: of fields that may be kept, and of the lines
/// ahead.
pub fn read_edits_are_typed()
    ensures fields { ReadEditsAreTyped }
    ensures ahead { EditsAheadAreTyped }
{}

/// The laws that the items ahead of a reader are the first, as [`crate::next_item`] reads it, and then those of what is ahead
/// behind it, whatever stands behind the lines; that each edit among them has numbers as wide as their fields, and texts that may
/// be kept; and that each tick is at a moment that 16 bits of days can say.
pub fn items_go_on()
    ensures on { ItemsGoOn }
    ensures typed { ItemsAreTyped }
    ensures window { ItemsAreInWindow }
{}
