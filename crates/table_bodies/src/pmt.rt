// The program map table.
ghost use Rattle.std.specs.Prelude.{◌≡◌, ◌<◌, ◌≤◌, ◌++◌, List, ℕ, Option, length, is_some, IfOk, OnOk};
ghost use Rattle.std.specs.List.{All, flat_map};
ghost use Rattle.std.proofs.Common.{lit<};
ghost use Rattle.guide_model.specs.Descriptors.{FitsDescriptor, descriptors_size};
ghost use Rattle.table_bodies.specs.Pmt.{IsWritable, component_bytes, component_in, further_of_component, language_descriptors, language_of, pmt_body, pmt_in, program_entry};
ghost use Rattle.table_bodies.specs.Entries.{entry_bytes};

use crate::{EntryKind, RawEntry, are_entries, read_entries, split_entry};
use descriptors::descriptor_kinds::Language;
use descriptors::{descriptors_len, take_first, write_descriptors, write_iso_639_language};
use guide_model::{Component, Components, RawDesc, RawDescs, ScreenComponent, ScreenComponents};
use si_base::{Bytes, Items};
use std::alloc::{AllocError, Global};

/// What a program map table holds: the PID of the program's clock reference (13 bits), the descriptors of the program and its
/// components.
#[derive(Drop)]
pub struct Pmt {
    pub pcr_pid: u16,
    pub descriptors: RawDescs,
    pub components: Components,
}

/// What was heard of a program map table: the PID of the program's clock reference (13 bits), the descriptors of the program and its
/// components.
#[derive(Drop)]
pub struct HeardPmt {
    pub pcr_pid: u16,
    pub descriptors: RawDescs,
    pub components: ScreenComponents,
}

/// The body of a section of the program map table (ISO/IEC 13818-1, 2.4.4.8). A component has an ISO_639_language_descriptor where it
/// has a language. Further descriptors follow it, in their order.
///
/// It needs PIDs below 8,192, bodies of at most 255 bytes, descriptors of the program of at most 4,095 bytes together and further ones
/// of a component of at most 4,089, so that each length fits its field.
pub fn write_pmt(alloc: Global, pmt: &Pmt) -> Result<Bytes, AllocError>
    requires pcr_pid { pmt.now.pcr_pid < 8192 }
    requires bodies { All FitsDescriptor pmt.now.descriptors }
    requires room { descriptors_size pmt.now.descriptors ≤ 4095 }
    requires components { All IsWritable pmt.now.components }
    ensures { IfOk result (λ body. body ≡ pmt_body pmt.now) }
{
    let mut out = Vec::new(alloc);
    put_program(pmt, &mut out)?;
    put_components(pmt.components.as_slice(), &mut out)?;
    Ok(Items::of(out))
}

// Appends the entry of the program; want of memory may leave a part of it.
fn put_program(pmt: &Pmt, out: &mut Vec<u8>) -> Result<(), AllocError>
    requires pcr_pid { pmt.now.pcr_pid < 8192 }
    requires bodies { All FitsDescriptor pmt.now.descriptors }
    requires room { descriptors_size pmt.now.descriptors ≤ 4095 }
    ensures { OnOk result (out.new.items ≡ out.old.items ++ entry_bytes (program_entry pmt.now.pcr_pid pmt.now.descriptors)) }
{
    let descs = pmt.descriptors.as_slice();
    let len = descriptors_len(descs) as u16;
    out.extend_from_slice(&(0xE000 + pmt.pcr_pid).to_be_bytes())?;
    out.extend_from_slice(&(0xF000 + len).to_be_bytes())?;
    write_descriptors(descs, out)
}

// Appends the entries of components; want of memory may leave a part of them.
fn put_components(components: &[Component], out: &mut Vec<u8>) -> Result<(), AllocError>
    requires { All IsWritable components.now }
    ensures { OnOk result (out.new.items ≡ out.old.items ++ flat_map component_bytes components.now) }
{
    for component in components {
        put_component(component, out)?;
    }
    Ok(())
}

// Appends the entry of a component; want of memory may leave a part of it.
fn put_component(component: &Component, out: &mut Vec<u8>) -> Result<(), AllocError>
    requires { IsWritable component.now }
    ensures { OnOk result (out.new.items ≡ out.old.items ++ component_bytes component.now) }
{
    let descs = component.descriptors.as_slice();
    let len = language_len(component.language) + descriptors_len(descs) as u16;
    out.push(component.stream_type)?;
    out.extend_from_slice(&(0xE000 + component.pid).to_be_bytes())?;
    out.extend_from_slice(&(0xF000 + len).to_be_bytes())?;
    put_language(component.language, out)?;
    write_descriptors(descs, out)
}

// The bytes of the descriptor of a language.
fn language_len(language: Option<[u8; 3]>) -> u16
    ensures value { result ≡ length (language_descriptors language) }
    ensures few { result ≤ 6 }
{
    match language {
        None => 0,
        Some(letters) => 3 + letters.len() as u16,
    }
}

// Appends the descriptor of a language, where there is one; want of memory changes nothing.
fn put_language(language: Option<[u8; 3]>, out: &mut Vec<u8>) -> Result<(), AllocError>
    ensures { OnOk result (out.new.items ≡ out.old.items ++ language_descriptors language) }
{
    match language {
        None => Ok(()),
        Some(letters) => write_iso_639_language(&[letters], out),
    }
}

/// What the body of a section of the program map table says, or `None` exactly where it ends within an entry, a length runs past the
/// end, a descriptor runs past the end of its loop, or bytes are left over. Reserved bits may have any value (ISO/IEC 13818-1, 2.4.4.8).
///
/// The language of a component is the first of its first ISO_639_language_descriptor whose body fits. That descriptor is no further
/// one where it has one entry, with an audio_type of 0.
pub fn read_pmt(alloc: Global, body: &[u8]) -> Result<Option<HeardPmt>, AllocError>
    ensures { IfOk result (λ read. read ≡ pmt_in body.now) }
{
    let Some((program, behind)) = split_entry(2, body) else {
        return Ok(None);
    };
    let Some(descriptors) = program.descriptors(alloc)? else {
        return Ok(None);
    };
    let Some(components) = read_entries::<ComponentEntries>(alloc, behind)? else {
        return Ok(None);
    };
    Ok(Some(HeardPmt {
        pcr_pid: program.two(0) % 8192,
        descriptors,
        components,
    }))
}

// The entries of components.
struct ComponentEntries;

impl EntryKind for ComponentEntries {
    type Value = ScreenComponent;

    const SIZE: usize = 3;

    ghost SIZE = { 3 };

    ghost value_of = { component_in };

    fn read(
        alloc: Global,
        entry: &RawEntry,
        descs: RawDescs,
    ) -> Result<Option<ScreenComponent>, AllocError> {
        let mut further = descs.into_vec();
        let language = take_language(alloc, &mut further)?;
        Ok(Some(ScreenComponent {
            stream_type: entry.byte(0),
            pid: entry.two(1) % 8192,
            language,
            descriptors: Items::of(further),
        }))
    }

    fn is_read(_entry: &RawEntry) -> bool {
        true
    }

    ghost is_narrow = { lit< tt };
}

// The first language of the first descriptor of languages that fits; the others stay.
fn take_language(alloc: Global, descs: &mut Vec<RawDesc>) -> Result<Option<[u8; 3]>, AllocError>
    ensures language { IfOk result (λ language. language ≡ language_of descs.old.items) }
    ensures further { OnOk result (descs.new.items ≡ further_of_component descs.old.items) }
{
    match take_first::<Language>(alloc, descs)? {
        Some(languages) => Ok(languages.as_slice().first().copied()),
        None => Ok(None),
    }
}

/// Whether these bytes are the body of a section of the program map table, as `read_pmt` reads it (ISO/IEC 13818-1, 2.4.4.8). It takes
/// no memory.
pub fn is_pmt_body(body: &[u8]) -> bool
    ensures { result ≡ is_some (pmt_in body.now) }
{
    match split_entry(2, body) {
        Some((program, components)) => {
            program.has_descriptors() && are_entries::<ComponentEntries>(components)
        }
        None => false,
    }
}
