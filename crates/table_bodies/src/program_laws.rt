// Laws of the written and the read forms.
ghost use Rattle.table_bodies.specs.Pat.{PatReadsBack, WrittenPatsAreRead};
ghost use Rattle.table_bodies.specs.Pmt.{PmtReadsBack};

/// Reading a written body gives its value back. A written PAT is read, whatever its fields.
pub fn written_programs_read_back()
    ensures pat { PatReadsBack }
    ensures pats { WrittenPatsAreRead }
    ensures pmt { PmtReadsBack }
{}
