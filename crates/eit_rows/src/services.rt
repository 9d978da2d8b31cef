// The service description table, both ways.
ghost use Rattle.std.specs.Prelude.{IsTrue};
ghost use Rattle.std.specs.List.{All};
ghost use Rattle.table_bodies.specs.Sdt.{FitsService};

use guide_model::{RawDescs, Shown, Txt};
use row_lines::{Row, each_part, put_made, put_read, put_shown, say, text};
use si_base::Items;
use std::alloc::{AllocError, Global};
use std::fmt::Write;
use table_bodies::{Sdt, SdtService, SdtServices, read_sdt, service_len, write_sdt};

/// The bytes for entries in the body of a section: 1,024 without the header, the CRC, original_network_id and a reserved byte.
const ROOM: usize = 1_009;

// A service: its id, the flags of its schedule and of its present and following events, each its letter or `-`, its type, its provider
// and its name, as `101 sp 1 "Acme" "News"`.
fn service_in(row: &mut Row) -> Option<SdtService> {
    let service = row.short();
    let flags = row.word();
    if !matches!(flags, "sp" | "s-" | "-p" | "--") {
        row.refuse();
    }
    let kind = row.octet();
    let provider = text(row)?;
    let name = text(row)?;
    row.pass_end();
    Some(SdtService {
        service,
        schedule: flags.starts_with('s'),
        present: flags.ends_with('p'),
        kind,
        provider: Shown::Text(provider),
        name: Shown::Text(name),
        descriptors: RawDescs::new(row.alloc()),
    })
}

// Whether its texts fit their descriptor, and it has no further ones.
fn fits_service(service: &SdtService) -> bool
    ensures { IsTrue result → FitsService service.now }
{
    let provider = service.provider.coded_len();
    provider <= 252 && service.name.coded_len() <= 252 - provider && service.descriptors.is_empty()
}

fn fit(services: &[SdtService]) -> bool
    ensures { IsTrue result → All FitsService services.now }
{
    services.iter().all(fits_service)
}

/// `write_sdt ORIGINAL / SERVICE FLAGS TYPE PROVIDER NAME / ..`.
pub fn write_services(row: &mut Row) {
    let sdt = Sdt {
        original: row.short(),
        services: Items::of(each_part(row, service_in)),
    };
    if !fit(sdt.services.as_slice()) {
        return row.refuse();
    }
    put_made(row, write_sdt(row.alloc(), &sdt));
}

/// `read_sdt BYTES`.
pub fn read_services(row: &mut Row, body: &[u8]) {
    let read = read_sdt(row.alloc(), body);
    put_read(row, read, " none", put_sdt);
}

fn put_sdt(row: &mut Row, sdt: &Sdt) {
    say!(row; " {}", sdt.original);
    for service in sdt.services.as_slice() {
        put_service(row, service);
    }
    row.put(";");
}

fn put_service(row: &mut Row, service: &SdtService) {
    let schedule = if service.schedule { "s" } else { "-" };
    let present = if service.present { "p" } else { "-" };
    say!(row; " / {} {schedule}{present} {}", service.service, service.kind);
    put_shown(row, &service.provider);
    put_shown(row, &service.name);
}

/// `service_len SERVICE FLAGS TYPE PROVIDER NAME`.
pub fn put_len(row: &mut Row) {
    let Some(service) = service_in(row) else {
        return;
    };
    if !fits_service(&service) {
        return row.refuse();
    }
    say!(row; " {}", service_len(&service));
}

/// `part_sdt COUNT PROVIDER NAME`: the services 1 to COUNT, parted among sections of which each takes as many next ones as fit; how many
/// are read of each body, and its size.
pub fn part_services(row: &mut Row) {
    let count = row.short();
    let Some(provider) = text(row) else {
        return;
    };
    let Some(name) = text(row) else {
        return;
    };
    if part(row, count, &provider, &name).is_err() {
        row.lack_memory();
    }
}

fn part(row: &mut Row, count: u16, provider: &Txt, name: &Txt) -> Result<(), AllocError> {
    let mut run = SdtServices::new(row.alloc());
    let mut room = ROOM;
    for id in 0..count {
        let service = service_with(row.alloc(), id + 1, provider, name)?;
        if !fits_service(&service) {
            row.refuse();
            return Ok(());
        }
        let len = service_len(&service);
        if room < len {
            put_section(row, run)?;
            run = SdtServices::new(row.alloc());
            room = ROOM;
        }
        room = room.saturating_sub(len);
        run.push(service)?;
    }
    put_section(row, run)
}

fn service_with(
    alloc: Global,
    id: u16,
    provider: &Txt,
    name: &Txt,
) -> Result<SdtService, AllocError> {
    Ok(SdtService {
        service: id,
        schedule: true,
        present: true,
        kind: 1,
        provider: Shown::Text(provider.copy()?),
        name: Shown::Text(name.copy()?),
        descriptors: RawDescs::new(alloc),
    })
}

fn put_section(row: &mut Row, run: SdtServices) -> Result<(), AllocError> {
    let sdt = Sdt {
        original: 1,
        services: run,
    };
    if !fit(sdt.services.as_slice()) {
        row.refuse();
        return Ok(());
    }
    let body = write_sdt(row.alloc(), &sdt)?;
    if let Some(read) = read_sdt(row.alloc(), body.as_slice())? {
        say!(row; " {}:{}", read.services.len(), body.len());
    }
    Ok(())
}
