// What the desk publishes.
ghost use Rattle.std.specs.Prelude.{◌≡◌, IfOk};

use crate::Txt;
use crate::event::Events;
use si_base::{Copies, Items};
use si_time::Moment;
use std::alloc::AllocError;

/// The names and the events of a service.
#[derive(Drop)]
pub struct ServiceGuide {
    pub service: u16,
    pub provider: Txt,
    pub name: Txt,
    pub events: Events,
}

/// Guides of services, in ascending order of service.
pub type ServiceGuides = Items<ServiceGuide>;

/// What is published: the moment of the publication, and each service's names and events.
#[derive(Drop)]
pub struct Guide {
    pub moment: Moment,
    pub services: ServiceGuides,
}

impl Copies for ServiceGuide {
    fn copy(&self) -> Result<ServiceGuide, AllocError> {
        Ok(ServiceGuide {
            service: self.service,
            provider: self.provider.copy()?,
            name: self.name.copy()?,
            events: self.events.copy()?,
        })
    }
}

impl Guide {
    /// A copy.
    pub fn copy(&self) -> Result<Guide, AllocError>
        ensures { IfOk result (λ copy. copy ≡ self.now) }
    {
        Ok(Guide {
            moment: self.moment,
            services: self.services.copy()?,
        })
    }
}
