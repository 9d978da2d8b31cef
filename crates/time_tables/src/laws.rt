// Laws of the written and the read form.
ghost use Rattle.time_tables.specs.Tdt.{TdtIsASection, TdtReadsBack};
ghost use Rattle.time_tables.specs.LocalOffsets.{OffsetsReadBack};
ghost use Rattle.time_tables.specs.Tot.{TotIsASection, TotReadsBack};

/// A written section is read as the section of table 0x70 with that UTC_time, and reading its body gives the moment back.
pub fn written_times_read_back()
    ensures section { TdtIsASection }
    ensures body { TdtReadsBack }
{}

/// A written section of the time offset table is read as the section of table 0x73 with that body,
/// and reading its body gives the moment and the offsets back.
pub fn written_offsets_read_back()
    ensures section { TotIsASection }
    ensures body { TotReadsBack }
    ensures entries { OffsetsReadBack }
{}
