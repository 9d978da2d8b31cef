// The services that feeds edit: the own ones, and those of other streams.
ghost use Rattle.std.specs.Prelude.{◌≡◌, ◌==◌, find, option_copied, option_map};
ghost use Rattle.std.specs.List.{list_any};
ghost use Rattle.mux_model.specs.declared.mux.MuxService.{MuxService as OwnService};
ghost use Rattle.mux_model.specs.declared.mux.RemoteService.{RemoteService as Remote};
ghost use Rattle.mux_model.specs.Fed.{fed_ids, fed_services, feed_of as feed_among};
ghost use Rattle.mux_model.specs.Sound.{IsSound, remote_services};

use crate::mux::{Mux, MuxService, Other, RemoteService};

// The first of these services that has this id.
fn own_of(services: &[MuxService], id: u16) -> Option<&MuxService>
    ensures { option_copied result ≡ find (λ (s : OwnService). s.service == id) services.now }
{
    services.iter().find(
        |s: &&MuxService| -> bool
            ensures { result ≡ (s.now.now.service == id) }
        { s.service == id },
    )
}

fn remote_of(services: &[RemoteService], id: u16) -> Option<&RemoteService>
    ensures { option_copied result ≡ find (λ (s : Remote). s.service == id) services.now }
{
    services.iter().find(
        |s: &&RemoteService| -> bool
            ensures { result ≡ (s.now.now.service == id) }
        { s.service == id },
    )
}

// The feed of the first own service with this id.
fn own_feed(services: &[MuxService], id: u16) -> Option<u8>
    ensures { result ≡ option_map (λ (s : OwnService). s.feed) (find (λ (s : OwnService). s.service == id) services.now) }
{
    match own_of(services, id) {
        Some(service) => Some(service.feed),
        None => None,
    }
}

// The feed of the first service of another stream with this id.
fn remote_feed(services: &[RemoteService], id: u16) -> Option<u8>
    ensures { result ≡ option_map (λ (s : Remote). s.feed) (find (λ (s : Remote). s.service == id) services.now) }
{
    match remote_of(services, id) {
        Some(service) => Some(service.feed),
        None => None,
    }
}

// The same among the services of all other streams.
fn others_feed(others: &[Other], id: u16) -> Option<u8>
    ensures { result ≡ option_map (λ (s : Remote). s.feed) (find (λ (s : Remote). s.service == id) (remote_services others.now)) }
{
    for other in others {
        match remote_feed(other.services.as_slice(), id) {
            Some(feed) => return Some(feed),
            None => {}
        }
    }
    None
}

impl Mux {
    /// The number of the feed that edits the service with this id, own or of another stream, and 0
    /// where no service has it.
    pub fn feed_of(&self, id: u16) -> u8
        requires { IsSound self.now }
        ensures { result ≡ feed_among (fed_services self.now) id }
    {
        if let Some(feed) = own_feed(self.services.as_slice(), id) {
            return feed;
        }
        match others_feed(self.others.as_slice(), id) {
            Some(feed) => feed,
            None => 0,
        }
    }

    /// Whether feeds edit a service with this id, own or of another stream.
    pub fn has_fed(&self, id: u16) -> bool
        ensures { result ≡ list_any (λ n. n == id) (fed_ids self.now) }
    {
        own_feed(self.services.as_slice(), id).is_some()
            || others_feed(self.others.as_slice(), id).is_some()
    }
}
