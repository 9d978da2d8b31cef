// Laws of the written and the read forms.
ghost use Rattle.table_bodies.specs.Nit.{NitHasItsSize, NitReadsBack, WrittenNitsAreRead};
ghost use Rattle.table_bodies.specs.Sdt.{SdtHasItsSize, SdtReadsBack, ServiceHasItsSize, WrittenSdtsAreRead};

use descriptors::written_descriptors_read_back;

/// Reading a written body gives its value back. Each body that can be written is read.
pub fn written_networks_read_back()
    ensures nit { NitReadsBack }
    ensures nits { WrittenNitsAreRead }
    ensures sdt { SdtReadsBack }
    ensures sdts { WrittenSdtsAreRead }
{
    written_descriptors_read_back();
}

/// How many bytes bodies have, and the entries of services.
pub fn bodies_have_their_sizes()
    ensures nit { NitHasItsSize }
    ensures service { ServiceHasItsSize }
    ensures sdt { SdtHasItsSize }
{}
