// The sections of a cycle, laid.
ghost use Rattle.std.specs.Prelude.{◌≡◌, ◌+◌, ◌*◌, ◌<◌, ◌≤◌, ◌++◌, [], ◌∷◌, List, ℕ, length, map, vec_len, vec_capacity, OnOk, OnErr};
ghost use Rattle.std.specs.List.{AllByRecursion};
ghost use Rattle.section_codec.specs.SubTables.{AreFit};
ghost use Rattle.version_book.specs.Airings.{AiredTables, CycleForm};
ghost use Rattle.version_book.specs.Book.{BookStandsFor, aired};
ghost use Rattle.air_model.specs.Air.{at_places, sections_once, cycle_sections, CanBeTold};
ghost use Rattle.air_model.specs.Laying.{IsPlaced, sent_at, HaveRoom, order_under, tot_size, room_for, places_for};
ghost use Rattle.air_model.specs.Telling.{AreInLine, Retells, laid_in, sent_retold};

use crate::laying::{lay_cycle, room_for, tot_of};
use crate::placed::Placed;
use crate::telling::tell_section;
use guide_model::Offset;
use section_codec::{SubTable, Tables};
use si_time::Moment;
use std::alloc::{AllocError, Global};
use version_book::VersionBook;

/// The sections of a cycle, laid end to end, each once, and where each of them stands.
#[derive(Drop)]
pub struct LaidSections {
    pub bytes: Vec<u8>,
    pub placed: Vec<Placed>,
}

impl LaidSections {
    /// No section. It takes no memory.
    pub fn none(alloc: Global) -> LaidSections
        ensures bytes { result.bytes.items ≡ [] }
        ensures placed { result.placed.items ≡ [] }
    {
        LaidSections {
            bytes: Vec::new(alloc),
            placed: Vec::new(alloc),
        }
    }

    /// Empties the buffers and takes the memory for the sections of these sub-tables, for a TDT,
    /// and for a TOT of these offsets.
    pub fn take_room(&mut self, tables: &[SubTable], offsets: &[Offset]) -> Result<(), AllocError>
        requires { CanBeTold offsets.now }
        ensures room { OnOk result (HaveRoom tables.now offsets.now self.new.bytes self.new.placed) }
        ensures no_byte { self.new.bytes.items ≡ [] }
        ensures no_place { self.new.placed.items ≡ [] }
    {
        take_room(&mut self.bytes, &mut self.placed, tables, offsets)
    }

    /// Lays the sections of the cycle of one airing more: those of these sub-tables, with the
    /// versions that the book gives them, the TDT of this moment, and its TOT where there are
    /// offsets. A plan of these sub-tables (`plan_cycle`) names each by its place. It needs the
    /// room for them, a moment whose day has 16 bits, and sub-tables that can be sent in one cycle.
    /// Where memory is wanting, the book stays as it was.
    pub fn lay(
        &mut self,
        alloc: Global,
        book: &mut VersionBook,
        tables: &Tables,
        moment: Moment,
        offsets: &[Offset],
    ) -> Result<(), AllocError>
        requires room { HaveRoom tables.now.list offsets.now self.old.bytes self.old.placed }
        requires offsets { CanBeTold offsets.now }
        requires fit { AreFit tables.now.list }
        requires moment { moment.0 < 65536 * 86400 }
        ensures versions { OnOk result ((past : List AiredTables) (form : CycleForm) → BookStandsFor past book.old
            → BookStandsFor (past ++ aired tables.now.list moment.0 form ∷ []) book.new) }
        ensures sections { OnOk result ((past : List AiredTables) (quota : ℕ) → BookStandsFor past book.old
            → map (sent_at self.new.bytes.items) (at_places self.new.placed.items (order_under tables.now.list (record { quota = quota; offsets = offsets.now })))
            ≡ cycle_sections past (aired tables.now.list moment.0 (record { quota = quota; offsets = offsets.now }))) }
        ensures placed { OnOk result (AllByRecursion (IsPlaced (length self.new.bytes.items)) self.new.placed.items) }
        ensures within { OnOk result ((quota : ℕ)
            → AllByRecursion (λ at. at < length self.new.placed.items) (order_under tables.now.list (record { quota = quota; offsets = offsets.now }))) }
        ensures told { OnOk result ((past : List AiredTables) (quota at : ℕ) → BookStandsFor past book.old
            → map (sent_retold at) (laid_in self.new.bytes.items self.new.placed.items)
            ≡ sections_once past (aired tables.now.list at (record { quota = quota; offsets = offsets.now }))) }
        ensures line { OnOk result (AreInLine self.new.bytes.items self.new.placed.items) }
        ensures count { OnOk result ((past : List AiredTables) (quota : ℕ) → length self.new.placed.items
            ≡ length (sections_once past (aired tables.now.list moment.0 (record { quota = quota; offsets = offsets.now })))) }
        ensures memory { OnErr result (book.new ≡ book.old) }
        ensures kept { OnErr result (self.new ≡ self.old) }
    {
        let section = tot_of(alloc, moment, offsets)?;
        let versions = book.assign(tables)?;
        lay_cycle(
            &mut self.bytes,
            &mut self.placed,
            tables.list.as_slice(),
            versions.as_slice(),
            moment,
            &section,
        );
        Ok(())
    }

    /// Writes this moment over that of the section at a place, if that is a TDT or a TOT, and the
    /// CRC of a TOT (EN 300 468, 5.2.5 and 5.2.6). Any other section stays. It needs a moment whose
    /// day has 16 bits, and takes no memory.
    pub fn tell(&mut self, at: usize, moment: Moment)
        requires line { AreInLine self.old.bytes.items self.old.placed.items }
        requires at { at < length self.old.placed.items }
        requires moment { moment.0 < 65536 * 86400 }
        ensures told { Retells moment.0 at (laid_in self.old.bytes.items self.old.placed.items)
            (laid_in self.new.bytes.items self.new.placed.items) }
        ensures line { AreInLine self.new.bytes.items self.new.placed.items }
        ensures placed { self.new.placed ≡ self.old.placed }
    {
        let place = self.placed[at];
        let (_, from) = self.bytes.as_mut_slice().split_at_mut(place.start);
        let (section, _) = from.split_at_mut(place.len);
        tell_section(section, moment);
    }
}

// How many bytes the TOT of these offsets has.
fn tot_size(offsets: &[Offset]) -> usize
    requires { CanBeTold offsets.now }
    ensures size { result ≡ tot_size offsets.now }
    ensures small { result ≤ 224 }
{
    if offsets.is_empty() {
        return 0;
    }
    16 + 13 * offsets.len()
}

// Empties the buffers and takes the memory for the sections of these sub-tables, for a TDT of 8
// bytes and for a TOT: two places.
fn take_room(
    bytes: &mut Vec<u8>,
    placed: &mut Vec<Placed>,
    tables: &[SubTable],
    offsets: &[Offset],
) -> Result<(), AllocError>
    requires { CanBeTold offsets.now }
    ensures bytes { bytes.new.items ≡ [] }
    ensures placed { placed.new.items ≡ [] }
    ensures room { OnOk result (vec_len bytes.new + (8 + tot_size offsets.now + room_for tables.now) ≤ vec_capacity bytes.new) }
    ensures places { OnOk result (vec_len placed.new + (2 + places_for tables.now) ≤ vec_capacity placed.new) }
{
    bytes.clear();
    placed.clear();
    let Some((size, places)) = room_for(tables) else {
        return Err(AllocError);
    };
    let times = 8 + tot_size(offsets);
    let (Some(size), Some(places)) = (size.checked_add(times), places.checked_add(2)) else {
        return Err(AllocError);
    };
    bytes.reserve(size)?;
    placed.reserve(places)?;
    Ok(())
}
