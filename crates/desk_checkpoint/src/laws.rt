// The law of checkpoints.
ghost use Rattle.desk_checkpoint.specs.Laws.{CheckpointsReadBack, StepsAreReadable};

/// The text of the checkpoint of a journal is never refused, whatever stands behind its end: it is read as the checkpoint. Its steps read
/// back, since the events and names that stand came from edits that lines gave, or from the multiplex.
pub fn checkpoints_read_back()
    ensures steps { StepsAreReadable }
    ensures back { CheckpointsReadBack }
{}
