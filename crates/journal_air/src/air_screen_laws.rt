// Laws of what a receiver shows of an air of publications.
ghost use Rattle.journal_air.specs.AirScreenLaws.{PublishedIsShown};

use table_bodies::written_networks_read_back;

/// Whatever was heard before, where all packets of a cycle are heard, and behind it packets alone of cycles of the same publication, nothing is
/// wanting: the guide is the whole screen of that publication, with the moment of the TDT that was heard last.
pub fn what_is_published_is_shown()
    ensures { PublishedIsShown }
{
    written_networks_read_back();
}
