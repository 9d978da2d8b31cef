// The descriptors of networks, streams, services and components, both ways.
ghost use Rattle.std.specs.Prelude.{IsTrue};
ghost use Rattle.descriptors.specs.CableDelivery.{FitsCable};

use descriptors::{
    ServiceKind, ServiceKinds, ServiceText, read_cable_delivery_system, read_iso_639_language,
    read_network_name, read_service, read_service_list, write_cable_delivery_system,
    write_iso_639_language, write_network_name, write_service, write_service_list,
};
use guide_model::{Cable, Shown};
use row_lines::{Row, code_in, each_word, put_appended, put_code, put_read, put_shown, say, text};
use si_base::Items;
use std::fmt::Write;

/// `read_iso_639_language BYTES`, and so of the other descriptors.
pub fn read(row: &mut Row, call: &str, body: &[u8]) {
    let alloc = row.alloc();
    match call {
        "read_iso_639_language" => {
            put_read(
                row,
                read_iso_639_language(alloc, body),
                " none",
                put_languages,
            )
        }
        "read_network_name" => put_read(row, read_network_name(alloc, body), " none", put_shown),
        "read_service_list" => put_read(row, read_service_list(alloc, body), " none", put_list),
        "read_service" => put_read(row, read_service(alloc, body), " none", put_service),
        _ => put_read(row, read_cable_delivery_system(body), " none", put_cable),
    }
}

fn put_languages(row: &mut Row, languages: &Items<[u8; 3]>) {
    for language in languages.as_slice() {
        put_code(row, language);
    }
    row.put(";");
}

fn put_list(row: &mut Row, services: &ServiceKinds) {
    put_kinds(row, services.as_slice());
    row.put(";");
}

fn put_service(row: &mut Row, service: &ServiceText) {
    say!(row; " {} |", service.kind);
    put_shown(row, &service.provider);
    row.put(" |");
    put_shown(row, &service.name);
}

/// Appends services and their types.
pub fn put_kinds(row: &mut Row, services: &[ServiceKind]) {
    for service in services {
        say!(row; " {}:{}", service.service, service.kind);
    }
}

/// Appends a cable.
pub fn put_cable(row: &mut Row, cable: &Cable) {
    let (outer, inner) = (cable.fec_outer, cable.fec_inner);
    say!(row; " {} {} {} {outer} {inner}", cable.frequency, cable.modulation, cable.symbol_rate);
}

/// `write_iso_639_language CODE ..`.
pub fn write_languages(row: &mut Row) {
    let languages = each_word(row, code_in);
    if languages.len() > 63 {
        return row.refuse();
    }
    let mut out = Vec::new(row.alloc());
    let done = write_iso_639_language(&languages, &mut out);
    put_appended(row, done, &out);
}

/// `write_network_name TEXT`.
pub fn write_name(row: &mut Row) {
    let Some(name) = text(row) else {
        return;
    };
    let name = Shown::Text(name);
    if name.coded_len() > 255 {
        return row.refuse();
    }
    let mut out = Vec::new(row.alloc());
    let done = write_network_name(&name, &mut out);
    put_appended(row, done, &out);
}

// A service and its type, as `101:1`.
fn kind_in(row: &mut Row, word: &str) -> ServiceKind {
    let (service, kind) = word.split_once(':').unwrap_or((word, ""));
    ServiceKind {
        service: row.short_in(service),
        kind: row.small_in(kind),
    }
}

/// Services and their types up to the end of a part.
pub fn kinds_in(row: &mut Row) -> ServiceKinds {
    Items::of(each_word(row, kind_in))
}

/// `write_service_list SERVICE:TYPE ..`.
pub fn write_list(row: &mut Row) {
    let services = kinds_in(row);
    if services.len() > 85 {
        return row.refuse();
    }
    let mut out = Vec::new(row.alloc());
    let done = write_service_list(services.as_slice(), &mut out);
    put_appended(row, done, &out);
}

/// Whether the digits and the halves of bytes fit.
pub fn fits(cable: &Cable) -> bool
    ensures { IsTrue result → FitsCable cable.now }
{
    cable.frequency < 100_000_000
        && cable.symbol_rate < 10_000_000
        && cable.fec_outer < 16
        && cable.fec_inner < 16
}

/// The cable whose frequency is this word, and whose other numbers follow.
pub fn cable_in(row: &mut Row, word: &str) -> Cable {
    Cable {
        frequency: row.known(word.parse::<u32>().ok(), 0),
        modulation: row.octet(),
        symbol_rate: row.long(),
        fec_outer: row.octet(),
        fec_inner: row.octet(),
    }
}

/// `write_cable_delivery_system FREQUENCY MODULATION SYMBOL_RATE OUTER INNER`.
pub fn write_cable(row: &mut Row) {
    let word = row.word();
    let cable = cable_in(row, word);
    if !fits(&cable) {
        return row.refuse();
    }
    let mut out = Vec::new(row.alloc());
    let done = write_cable_delivery_system(&cable, &mut out);
    put_appended(row, done, &out);
}

/// `write_service TYPE | PROVIDER | NAME`.
pub fn write_text(row: &mut Row) {
    let kind = row.octet();
    row.pass("|");
    let provider = text(row);
    row.pass("|");
    if let (Some(provider), Some(name)) = (provider, text(row)) {
        let service = ServiceText {
            kind,
            provider: Shown::Text(provider),
            name: Shown::Text(name),
        };
        put_written(row, &service);
    }
}

fn put_written(row: &mut Row, service: &ServiceText) {
    let provider = service.provider.coded_len();
    if provider > 252 || service.name.coded_len() > 252 - provider {
        return row.refuse();
    }
    let mut out = Vec::new(row.alloc());
    let done = write_service(service, &mut out);
    put_appended(row, done, &out);
}
