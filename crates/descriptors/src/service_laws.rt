// Laws of the written and the read forms.
ghost use Rattle.descriptors.specs.Languages.{LanguagesReadBack};
ghost use Rattle.descriptors.specs.NetworkName.{NetworkNameReadsBack};
ghost use Rattle.descriptors.specs.ServiceList.{ServiceListReadsBack};
ghost use Rattle.descriptors.specs.CableDelivery.{CableReadsBack};
ghost use Rattle.descriptors.specs.Service.{ServiceReadsBack};

/// Reading a written body gives its value back.
pub fn written_descriptors_read_back()
    ensures languages { LanguagesReadBack }
    ensures network_name { NetworkNameReadsBack }
    ensures service_list { ServiceListReadsBack }
    ensures cable { CableReadsBack }
    ensures service { ServiceReadsBack }
{}
