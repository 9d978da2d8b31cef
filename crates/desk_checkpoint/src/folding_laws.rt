// Laws of checkpoints.
ghost use Rattle.desk_checkpoint.specs.FoldingLaws.{StepsAreTaken, StepsAreWithin, NothingIsAired, GoesOn, AirGoesOn, RepliesAreEqual, StaysLegal, PublicationsAreEqual, AiredIsEqual, FoldsAgain};

/// The steps of the checkpoint of a legal journal are all taken by a fresh desk of its multiplex, and put nothing on air; and that desk
/// then goes on as the one with the journal, as does the air. A desk may be asked them, and lines can give them.
pub fn checkpoints_are_taken()
    ensures taken { StepsAreTaken }
    ensures goes_on { GoesOn }
    ensures within { StepsAreWithin }
    ensures nothing { NothingIsAired }
    ensures air { AirGoesOn }
{}

/// Where two journals go on alike, replies and outcomes after both are equal whatever is asked, but for the numbers of publications,
/// which are greater by the shift. So the first goes on with the raised entries of the second, and both still go on alike. Equal numbers
/// but for the shift are of equal publications, and the same is put on air.
pub fn desks_go_on()
    ensures replies { RepliesAreEqual }
    ensures legal { StaysLegal }
    ensures publications { PublicationsAreEqual }
    ensures aired { AiredIsEqual }
{}

/// Where two journals go on alike, the steps of the checkpoint of the first are those that are made of the second and the shift.
pub fn checkpoints_fold_again()
    ensures again { FoldsAgain }
{}
