//! Tests of schedules and of tables beside events: the public calls of `eit_segments`, and those of
//! `table_bodies`, `descriptors` and `time_tables`.
//!
//! A line of `stdin` is a call with its arguments and the answer that is wanted (`run_rows`).
#![tactic(auto)]

mod answers;
mod events;
mod looks;
mod networks;
mod offsets;
mod placeable;
mod programs;
mod service_descriptors;
mod services;

use row_lines::{Row, run_rows};
use std::io;

// Answers a row.
fn answer(row: &mut Row) {
    match row.word() {
        call @ ("segments" | "present_following") => answers::answer(row, call),
        "write_iso_639_language" => service_descriptors::write_languages(row),
        "write_network_name" => service_descriptors::write_name(row),
        "write_service_list" => service_descriptors::write_list(row),
        "write_cable_delivery_system" => service_descriptors::write_cable(row),
        "write_service" => service_descriptors::write_text(row),
        "write_pat" => programs::write_programs(row),
        "read_pat" => programs::read_programs(row),
        "write_pmt" => programs::write_program(row),
        "read_pmt" => programs::read_program(row),
        "write_nit" => networks::write_network(row),
        "write_sdt" => services::write_services(row),
        "service_len" => services::put_len(row),
        "part_sdt" => services::part_services(row),
        "write_tdt" => looks::write_time(row),
        "write_tot" => offsets::write_offsets(row),
        "tot_bits" => offsets::change_bits(row),
        "fronts" => looks::fronts(row),
        call => {
            let bytes = row.bytes();
            answer_of_bytes(row, call, &bytes);
        }
    }
}

// The same of what is read only of bytes.
fn answer_of_bytes(row: &mut Row, call: &str, bytes: &[u8]) {
    match call {
        "read_nit" => networks::read_network(row, bytes),
        "read_sdt" => services::read_services(row, bytes),
        "read_tdt" => looks::read_time(row, bytes),
        "read_tot" => offsets::read_offsets(row, bytes),
        "read_iso_639_language" | "read_network_name" | "read_service_list" => {
            service_descriptors::read(row, call, bytes);
        }
        "read_cable_delivery_system" | "read_service" => {
            service_descriptors::read(row, call, bytes);
        }
        _ => looks::look(row, call, bytes),
    }
}

fn main(rt: HostRuntime) -> io::Result<()> {
    run_rows(&rt, answer)
}
