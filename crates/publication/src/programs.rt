// The program association table and the program map tables.
ghost use Rattle.std.specs.Prelude.{◌≡◌, ◌∷◌, ◌++◌, map, IfOk, OnOk};
ghost use Rattle.std.specs.List.{All};
ghost use Rattle.mux_model.specs.Sound.{IsSound, IsSoundService};
ghost use Rattle.publication.specs.Programs.{pat_of, pat_table, pmt_of, pmt_table};

use crate::sections::single_table;
use mux_model::{Mux, MuxService};
use section_codec::{Key, SubTable, SubTables};
use std::alloc::{AllocError, Global};
use table_bodies::{PatEntries, PatEntry, Pmt, write_pat, write_pmt};

/// The PID and the table_id of the program association table (ISO/IEC 13818-1, 2.4.4.3).
const PAT_PID: u16 = 0x0000;

const PAT: u8 = 0x00;

/// The table_id of a program map table (ISO/IEC 13818-1, 2.4.4.8).
const PMT: u8 = 0x02;

/// The PID of the network information table (EN 300 468, 5.1.3).
pub(crate) const NIT_PID: u16 = 0x0010;

// Program 0, and then the services with the PIDs of their program map tables.
fn programs(alloc: Global, mux: &Mux) -> Result<PatEntries, AllocError>
    ensures { IfOk result (λ programs. programs ≡ pat_of mux.now) }
{
    let mut programs = PatEntries::new(alloc);
    programs.push(PatEntry {
        program: 0,
        pid: NIT_PID,
    })?;
    for service in mux.services.as_slice() {
        programs.push(PatEntry {
            program: service.service,
            pid: service.pmt_pid,
        })?;
    }
    Ok(programs)
}

/// The program association table of this multiplex (ISO/IEC 13818-1, 2.4.4.3).
pub(crate) fn pat_table(alloc: Global, mux: &Mux) -> Result<SubTable, AllocError>
    requires { IsSound mux.now }
    ensures { IfOk result (λ table. table ≡ pat_table mux.now) }
{
    let programs = programs(alloc, mux)?;
    let body = write_pat(alloc, programs.as_slice())?;
    let key = Key {
        pid: PAT_PID,
        table: PAT,
        ext: mux.stream,
        stream: 0,
        network: 0,
    };
    single_table(alloc, key, body)
}

// What the program map table of a service says.
fn program(service: &MuxService) -> Result<Pmt, AllocError>
    ensures { IfOk result (λ pmt. pmt ≡ pmt_of service.now) }
{
    Ok(Pmt {
        pcr_pid: service.pcr_pid,
        descriptors: service.program_descriptors.copy()?,
        components: service.components.copy()?,
    })
}

// The program map table of a service.
fn pmt_table(alloc: Global, service: &MuxService) -> Result<SubTable, AllocError>
    requires { IsSoundService service.now }
    ensures { IfOk result (λ table. table ≡ pmt_table service.now) }
{
    let pmt = program(service)?;
    let body = write_pmt(alloc, &pmt)?;
    let key = Key {
        pid: service.pmt_pid,
        table: PMT,
        ext: service.service,
        stream: 0,
        network: 0,
    };
    single_table(alloc, key, body)
}

/// Appends the program map tables of these services, in their order (ISO/IEC 13818-1, 2.4.4.8); want of memory may leave a part of
/// them.
pub(crate) fn put_pmts(
    alloc: Global,
    services: &[MuxService],
    list: &mut SubTables,
) -> Result<(), AllocError>
    requires { All IsSoundService services.now }
    ensures { OnOk result (list.new ≡ list.old ++ map pmt_table services.now) }
{
    for service in services {
        list.push(pmt_table(alloc, service)?)?;
    }
    Ok(())
}
