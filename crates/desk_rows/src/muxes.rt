// What descriptions of a multiplex give.
use crate::words::{put_further, put_moment, put_read_stop};
use guide_model::{Cable, Component, Offset};
use mux_config::{MuxFault, MuxStop, Word, read_mux};
use mux_model::{Mux, MuxService, Other, RemoteService};
use row_lines::{Buffer, Lines, say, text_of};
use std::alloc::{AllocError, Global};
use std::fmt::Write;

fn put_fault(out: &mut Buffer, fault: MuxFault) {
    match fault {
        MuxFault::Line(line) => say!(out; "line {line} is no record"),
        MuxFault::Range(line) => say!(out; "line {line} is out of range"),
        MuxFault::Twice(line, earlier) => say!(out; "line {line} repeats line {earlier}"),
        MuxFault::Full(line) => say!(out; "line {line} has no room"),
        MuxFault::Missing(Word::Network) => out.say("network missing"),
        MuxFault::Missing(Word::Stream) => out.say("stream missing"),
        MuxFault::Missing(Word::Service) => out.say("service missing"),
        MuxFault::Missing(Word::End) => out.say("end missing"),
    }
}

fn put_stop(out: &mut Buffer, stop: MuxStop) {
    match stop {
        MuxStop::Fault(fault) => put_fault(out, fault),
        MuxStop::Read(stop) => put_read_stop(out, stop),
        MuxStop::Memory => out.note(Err(AllocError)),
    }
}

fn put_cable(out: &mut Buffer, cable: Option<&Cable>) {
    if let Some(cable) = cable {
        let (outer, inner) = (cable.fec_outer, cable.fec_inner);
        say!(out; "; cable frequency {}, modulation {}", cable.frequency, cable.modulation);
        say!(out; ", symbol rate {}, outer {outer}, inner {inner}", cable.symbol_rate);
    }
}

fn put_component(out: &mut Buffer, component: &Component) {
    say!(out; ", component {} of type {}", component.pid, component.stream_type);
    if let Some(language) = &component.language {
        say!(out; " in {}", text_of(language));
    }
    put_further(out, ", ", &component.descriptors);
}

// A service; of more than nine components their number.
fn put_service(out: &mut Buffer, service: &MuxService) {
    let (provider, name) = (service.provider.as_str(), service.name.as_str());
    say!(out; "; service {} of feed {}, type {}", service.service, service.feed, service.kind);
    say!(out; ", PMT {}, PCR {}, \"{provider}\" \"{name}\"", service.pmt_pid, service.pcr_pid);
    put_further(out, ", ", &service.descriptors);
    put_further(out, ", program ", &service.program_descriptors);
    let components = service.components.as_slice();
    if 9 < components.len() {
        return say!(out; ", {} components", components.len());
    }
    for component in components {
        put_component(out, component);
    }
}

fn put_offset(out: &mut Buffer, offset: &Offset) {
    let (country, side) = (
        text_of(&offset.country),
        if offset.behind { "behind" } else { "ahead" },
    );
    say!(out; "; {country} {} {} minutes {side}, from ", offset.region, offset.minutes);
    put_moment(out, "", offset.change);
    say!(out; " on {}", offset.next);
}

fn put_remote(out: &mut Buffer, service: &RemoteService) {
    let (provider, name) = (service.provider.as_str(), service.name.as_str());
    say!(out; "; remote {} of feed {}", service.service, service.feed);
    say!(out; ", type {}, \"{provider}\" \"{name}\"", service.kind);
    put_further(out, ", ", &service.descriptors);
}

fn put_other(out: &mut Buffer, other: &Other) {
    say!(out; "; other {} of {}", other.stream, other.original);
    put_cable(out, other.cable.as_ref());
    put_further(out, ", ", &other.descriptors);
    let remotes = other.services.as_slice();
    put_each(out, remotes, "remote services", put_remote);
}

// Each of these; of more than nine their number and the last.
fn put_each<T, F: Fn(&mut Buffer, &T)>(out: &mut Buffer, items: &[T], name: &str, put: F)
    requires { F.IsAlwaysCallable put }
{
    let count = items.len();
    if let [.., last] = items
        && 9 < count
    {
        say!(out; "; {count} {name}");
        return put(out, last);
    }
    for item in items {
        put(out, item);
    }
}

fn put_mux(out: &mut Buffer, mux: &Mux) {
    say!(out; "network {} \"{}\"", mux.network, mux.network_name.as_str());
    say!(out; "; stream {} of {}", mux.stream, mux.original);
    put_cable(out, mux.cable.as_ref());
    put_moment(out, "; start ", mux.start);
    say!(out; "; quota {}", mux.quota);
    if let Some(rate) = mux.rate {
        say!(out; "; rate {rate}");
    }
    put_each(out, mux.offsets.as_slice(), "offsets", put_offset);
    put_each(out, mux.services.as_slice(), "services", put_service);
    put_each(out, mux.others.as_slice(), "other streams", put_other);
    put_further(out, "; network ", &mux.network_descriptors);
    put_further(out, "; stream ", &mux.stream_descriptors);
}

// The line after the description, where there is one.
fn put_behind(lines: &mut Lines, out: &mut Buffer) {
    match lines.next() {
        Ok(Some(number)) => {
            say!(out; "; line {number} is ahead: ");
            out.put(lines.line());
        }
        Ok(None) => {}
        Err(stop) => {
            out.say("; ");
            put_read_stop(out, stop);
        }
    }
}

/// Appends what the copy of a description gives.
pub fn tell(alloc: Global, lines: &mut Lines, out: &mut Buffer) {
    match read_mux(alloc, lines) {
        Ok(mux) => {
            if let Some(copy) = out.made(mux.copy()) {
                put_mux(out, &copy);
            }
        }
        Err(stop) => return put_stop(out, stop),
    }
    put_behind(lines, out);
}
