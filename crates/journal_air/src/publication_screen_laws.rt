// Laws of what a receiver shows of a publication.
ghost use Rattle.journal_air.specs.PublicationScreenLaws.{PublicationIsShown};

use table_bodies::written_networks_read_back;

/// Where a view has all tables of a publication, whatever else it has, the key of its PAT, of its NIT, of its SDT and of the SDTs of the other
/// streams, and a moment, nothing is wanting, and the screen is that of the guide.
pub fn publications_are_shown()
    ensures { PublicationIsShown }
{
    written_networks_read_back();
}
