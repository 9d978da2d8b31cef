// The kinds of descriptors that are read.
ghost use Rattle.std.specs.Prelude.{◌≡◌, ◌==◌, length, Some};
ghost use Rattle.descriptors.specs.CableDelivery.{cable_in};
ghost use Rattle.descriptors.specs.Content.{content_in};
ghost use Rattle.descriptors.specs.First.{always};
ghost use Rattle.descriptors.specs.Languages.{is_one_language, languages_in};
ghost use Rattle.descriptors.specs.NetworkName.{name_read, network_name_in};
ghost use Rattle.descriptors.specs.ParentalRating.{is_one_rating, parental_rating_in};
ghost use Rattle.descriptors.specs.Service.{service_in};
ghost use Rattle.descriptors.specs.ServiceList.{service_list_in};
ghost use Rattle.descriptors.specs.ShortEvent.{short_event_in};

use crate::{
    DescriptorKind, Languages, Ratings, ServiceKinds, ServiceText, ShortEvent,
    read_cable_delivery_system, read_content, read_iso_639_language, read_network_name,
    read_parental_rating, read_service, read_service_list, read_short_event,
};
use guide_model::{Cable, Genres, Shown};
use std::alloc::{AllocError, Global};

/// network_name_descriptor (EN 300 468, 6.2.27).
pub struct NetworkName;

impl DescriptorKind for NetworkName {
    type Value = Shown;

    const TAG: u8 = 0x40;

    ghost TAG = { 0x40 };

    ghost value_of = { name_read };

    ghost shows = { always };

    fn read(alloc: Global, body: &[u8]) -> Result<Option<Shown>, AllocError> {
        read_network_name(alloc, body)
    }

    fn is_whole(_body: &[u8]) -> bool {
        true
    }
}

/// service_list_descriptor (EN 300 468, 6.2.35).
pub struct ServiceList;

impl DescriptorKind for ServiceList {
    type Value = ServiceKinds;

    const TAG: u8 = 0x41;

    ghost TAG = { 0x41 };

    ghost value_of = { service_list_in };

    ghost shows = { always };

    fn read(alloc: Global, body: &[u8]) -> Result<Option<ServiceKinds>, AllocError> {
        read_service_list(alloc, body)
    }

    fn is_whole(_body: &[u8]) -> bool {
        true
    }
}

/// cable_delivery_system_descriptor (EN 300 468, 6.2.13.1).
pub struct CableDelivery;

impl DescriptorKind for CableDelivery {
    type Value = Cable;

    const TAG: u8 = 0x44;

    ghost TAG = { 0x44 };

    ghost value_of = { cable_in };

    ghost shows = { always };

    fn read(_alloc: Global, body: &[u8]) -> Result<Option<Cable>, AllocError> {
        read_cable_delivery_system(body)
    }

    fn is_whole(_body: &[u8]) -> bool {
        true
    }
}

/// service_descriptor (EN 300 468, 6.2.33).
pub struct Service;

impl DescriptorKind for Service {
    type Value = ServiceText;

    const TAG: u8 = 0x48;

    ghost TAG = { 0x48 };

    ghost value_of = { service_in };

    ghost shows = { always };

    fn read(alloc: Global, body: &[u8]) -> Result<Option<ServiceText>, AllocError> {
        read_service(alloc, body)
    }

    fn is_whole(_body: &[u8]) -> bool {
        true
    }
}

/// ISO_639_language_descriptor (ISO/IEC 13818-1, 2.6.18). A component has one language, without its audio_type.
pub struct Language;

impl DescriptorKind for Language {
    type Value = Languages;

    const TAG: u8 = 0x0A;

    ghost TAG = { 0x0A };

    ghost value_of = { languages_in };

    ghost shows = { is_one_language };

    fn read(alloc: Global, body: &[u8]) -> Result<Option<Languages>, AllocError> {
        read_iso_639_language(alloc, body)
    }

    fn is_whole(body: &[u8]) -> bool {
        body.len() == 4 && body[3] == 0
    }
}

/// short_event_descriptor (EN 300 468, 6.2.37).
pub struct ShortText;

impl DescriptorKind for ShortText {
    type Value = ShortEvent;

    const TAG: u8 = 0x4D;

    ghost TAG = { 0x4D };

    ghost value_of = { short_event_in };

    ghost shows = { always };

    fn read(alloc: Global, body: &[u8]) -> Result<Option<ShortEvent>, AllocError> {
        read_short_event(alloc, body)
    }

    fn is_whole(_body: &[u8]) -> bool {
        true
    }
}

/// content_descriptor (EN 300 468, 6.2.9).
pub struct Content;

impl DescriptorKind for Content {
    type Value = Genres;

    const TAG: u8 = 0x54;

    ghost TAG = { 0x54 };

    ghost value_of = { content_in };

    ghost shows = { always };

    fn read(alloc: Global, body: &[u8]) -> Result<Option<Genres>, AllocError> {
        read_content(alloc, body)
    }

    fn is_whole(_body: &[u8]) -> bool {
        true
    }
}

/// parental_rating_descriptor (EN 300 468, 6.2.28). An event has the rating of one country.
pub struct ParentalRating;

impl DescriptorKind for ParentalRating {
    type Value = Ratings;

    const TAG: u8 = 0x55;

    ghost TAG = { 0x55 };

    ghost value_of = { parental_rating_in };

    ghost shows = { is_one_rating };

    fn read(alloc: Global, body: &[u8]) -> Result<Option<Ratings>, AllocError> {
        read_parental_rating(alloc, body)
    }

    fn is_whole(body: &[u8]) -> bool {
        body.len() == 4
    }
}
