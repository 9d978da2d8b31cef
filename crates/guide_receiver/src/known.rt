// The sections that counted last.
ghost use Rattle.std.specs.Prelude.{◌≡◌, ◌≤◌, ◌<◌, Some, IfOk, IfSome, length, option_map, true};
ghost use Rattle.section_codec.specs.Section.{long_body};
ghost use Rattle.sub_collect.specs.Runs.{counted};
ghost use Rattle.sub_collect.specs.Collectors.{KeysHeard, IsRepeated};
ghost use Rattle.guide_receiver.specs.Counting.{counted_in};
ghost use Rattle.guide_receiver.specs.Heard.{CountsAgain};
ghost use Rattle.guide_receiver.specs.Known.{IsKnown, AreKnown};

use crate::known_section::KnownSection;
use crate::{CountedSection, counted_section};
use si_base::Items;
use std::alloc::{AllocError, Global};
use std::collections::HashMap;
use sub_collect::Collector;
use ts_demux::RawSection;

// What names a section in the long form: its PID, table_id, table_id_extension and section_number.
#[derive(Clone, Copy, PartialEq, Eq, Hash)]
struct SectionName {
    pid: u16,
    table: u8,
    ext: u16,
    number: u8,
}

// Of each name the section that counted last. The same bytes heard once more need no CRC and no reading. A round ends where the
// collector may change: what it was seen to hold in the present one it holds still, and is not compared with it again.
#[derive(Drop)]
pub(crate) struct KnownSections {
    sections: HashMap<SectionName, KnownSection>,
    round: u64,
}

impl KnownSections {
    // None. It takes no memory.
    pub(crate) fn none(alloc: Global) -> KnownSections
        ensures { (collector : KeysHeard) → AreKnown collector result }
    {
        KnownSections {
            sections: HashMap::new(alloc),
            round: 1,
        }
    }

    // Begins a round: the collector may change.
    pub(crate) fn next_round(&mut self, alloc: Global)
        ensures { (before : KeysHeard) → AreKnown before self.old → (behind : KeysHeard) → AreKnown behind self.new }
    {
        match self.round.checked_add(1) {
            Some(round) => self.round = round,
            None => self.sections = HashMap::new(alloc),
        }
    }

    // Whether a section counted last under its name, and is held already.
    pub(crate) fn counts_again(&mut self, collector: &Collector, section: &RawSection) -> bool
        ensures known { AreKnown collector.now self.old → AreKnown collector.now self.new }
        ensures again { AreKnown collector.now self.old → result ≡ true → CountsAgain collector.now section.now }
    {
        let Some(name) = name_in(section) else {
            return false;
        };
        let round = self.round;
        match self.sections.get_mut(&name) {
            Some(known) => known.is_of(section) && is_held(known, collector, round),
            None => false,
        }
    }

    // The section with these bytes, where it counted last under its name.
    fn find(&self, section: &RawSection) -> Option<&KnownSection>
        ensures same { IfSome result (λ known. known.now.raw ≡ section.now) }
        ensures long { IfSome result (λ known. 12 ≤ length known.now.raw.bytes) }
    {
        let name = name_in(section)?;
        let known = self.sections.get(&name)?;
        if known.is_of(section) {
            Some(known)
        } else {
            None
        }
    }

    // The section that counts: where one with the same bytes counted last under its name, a copy of that; or else as it is read, and kept.
    pub(crate) fn counted_section(
        &mut self,
        alloc: Global,
        section: &RawSection,
    ) -> Result<Option<CountedSection>, AllocError>
        ensures counts { IfOk result (λ found. option_map (λ s. counted s.key s.header s.body) found ≡ counted_in section.now) }
        ensures known { (collector : KeysHeard) → AreKnown collector self.old → AreKnown collector self.new }
    {
        if let Some(same) = self.find(section) {
            return Ok(Some(same.copy(alloc)?));
        }
        let Some(counts) = counted_section(alloc, section)? else {
            return Ok(None);
        };
        self.keep(alloc, section, &counts)?;
        Ok(Some(counts))
    }

    // Keeps a section that counted.
    fn keep(
        &mut self,
        alloc: Global,
        section: &RawSection,
        counts: &CountedSection,
    ) -> Result<(), AllocError>
        requires { counted_in section.now ≡ Some (counted counts.now.key counts.now.header (long_body section.now.bytes)) }
        ensures { (collector : KeysHeard) → AreKnown collector self.old → AreKnown collector self.new }
    {
        let name = SectionName {
            pid: section.pid,
            table: counts.header.table,
            ext: counts.header.ext,
            number: counts.header.number,
        };
        let bytes = Items::of(Vec::from_slice(alloc, section.bytes.as_slice())?);
        let known = KnownSection {
            key: counts.key,
            header: counts.header,
            raw: RawSection {
                pid: section.pid,
                bytes,
            },
            round: 0,
        };
        self.sections.insert(name, known)?;
        Ok(())
    }
}

// Whether the collector holds a section: it was seen to in this round, or is seen to now.
fn is_held(known: &mut KnownSection, collector: &Collector, round: u64) -> bool
    requires { 12 ≤ length known.old.raw.bytes }
    ensures same { (known.new.key ≡ known.old.key) × (known.new.header ≡ known.old.header) × (known.new.raw ≡ known.old.raw) }
    ensures kept { IsKnown collector.now round known.old → IsKnown collector.now round known.new }
    ensures held { IsKnown collector.now round known.old → result ≡ true → IsRepeated collector.now (counted known.old.key known.old.header (long_body known.old.raw.bytes)) }
{
    if known.round == round {
        return true;
    }
    if !collector.repeats(known.key, &known.header, known.body()) {
        return false;
    }
    known.round = round;
    true
}

// The name of a section of 12 bytes or more.
fn name_in(section: &RawSection) -> Option<SectionName>
    ensures { IfSome result (λ name. 12 ≤ length section.now.bytes) }
{
    let bytes = section.bytes.as_slice();
    if bytes.len() < 12 {
        return None;
    }
    Some(SectionName {
        pid: section.pid,
        table: bytes[0],
        ext: u16::from_be_bytes([bytes[3], bytes[4]]),
        number: bytes[6],
    })
}
