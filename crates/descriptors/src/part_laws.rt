// Laws of the written and the read forms.
ghost use Rattle.descriptors.specs.Descriptors.{DescriptorsAreUnique};
ghost use Rattle.descriptors.specs.Lengths.{LengthsReadBack};

/// Bytes are the descriptors of one list at most.
pub fn descriptors_are_unique()
    ensures { DescriptorsAreUnique }
{}

/// Bytes that were written behind their length are read back, and so is what stands behind them.
pub fn lengths_read_back()
    ensures { LengthsReadBack }
{}
