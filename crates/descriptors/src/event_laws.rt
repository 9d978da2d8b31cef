// Laws of the written and the read forms.
ghost use Rattle.descriptors.specs.ShortEvent.{ShortEventReadsBack};
ghost use Rattle.descriptors.specs.ExtendedEvent.{ExtendedEventReadsBack};
ghost use Rattle.descriptors.specs.Content.{ContentReadsBack};
ghost use Rattle.descriptors.specs.ParentalRating.{ParentalRatingReadsBack};

/// Reading a written body gives its value back.
pub fn written_event_descriptors_read_back()
    ensures short_event { ShortEventReadsBack }
    ensures extended_event { ExtendedEventReadsBack }
    ensures content { ContentReadsBack }
    ensures parental_rating { ParentalRatingReadsBack }
{}
