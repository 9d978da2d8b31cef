// The receiver.
ghost use Rattle.std.specs.Prelude.{◌≡◌, ◌≢◌, ◌↔◌, ◌++◌, ◌∷◌, [], List, ℕ, Option, Ok, Err, IfOk, OnOk, map, option_map, option_to_list, slice_index};
ghost use Rattle.section_codec.specs.declared.table.Key.{Key};
ghost use Rattle.ts_packets.specs.Bytes.{shape_in};
ghost use Rattle.ts_demux.specs.declared.section.RawSection.{RawSection};
ghost use Rattle.ts_demux.specs.Sections.{ended_by, heard_all};
ghost use Rattle.ts_demux.specs.Breaks.{follows_in};
ghost use Rattle.sub_collect.specs.KeyCounts.{HaveFewKeys, HaveTooManyKeys};
ghost use Rattle.sub_collect.specs.declared.collector.TakeStop.{TakeStop};
ghost use Rattle.sub_collect.specs.Marks.{Taken, Taken.Forgot, Taken.ForgotAll, dones_over, all_took, sections_taken};
ghost use Rattle.sub_collect.specs.Collectors.{CollectorStandsOver};
ghost use Rattle.guide_receiver.specs.declared.done.DoneKey.{DoneKey};
ghost use Rattle.guide_receiver.specs.Counting.{counted_in, counted_among};
ghost use Rattle.guide_receiver.specs.Latest.{keys_shown_over, kept_keys, AreLatest};
ghost use Rattle.guide_receiver.specs.Heard.{took_by, ReceiverStandsFor, ReceiverStandsAfter};
ghost use Rattle.guide_receiver.specs.Known.{AreKnown};
ghost use Rattle.guide_receiver.specs.Dones.{counted_heard, done_key, dones_by};
ghost use Rattle.guide_screen.specs.Holding.{Holds};
ghost use Rattle.guide_screen.specs.Screen.{heard_of};
ghost use Rattle.guide_receiver.specs.Guides.{guide_of, view_after};

use crate::clock::clock_behind;
use crate::known::KnownSections;
use crate::latest_keys::LatestKeys;
use crate::offsets::{keep_last, offsets_behind};
use crate::{CountedSection, DoneKey, Dones};
use guide_model::{Offset, Offsets};
use guide_screen::{Heard, Latest, heard_guide};
use section_codec::Key;
use si_base::Items;
use si_time::Moment;
use std::alloc::{AllocError, Global};
use std::marker::Model;
use sub_collect::{Collector, TakeStop};
use ts_demux::{Demux, RawSection};
use ts_packets::{Shape, read_packet};

/// Why a packet is not heard: its first byte is not the sync_byte 0x47, a section that ends in it would bring the 65,537th key, or want of
/// memory.
#[derive(Clone, Copy, PartialEq, Eq)]
pub enum HearStop {
    Sync,
    TooMany,
    Memory,
}

/// A receiver of a transport stream. It stands for the packets that it heard, and for their
/// sections that count with the marks between them. It keeps of each PID the section that is open
/// and the sections that counted last, of each sub-table its present run of sections and its latest
/// completion, the keys of PAT, NIT and SDTs that were completed last and of the SDTs of other
/// streams, and the last moment and the last offsets that it heard. It keeps its allocator.
#[derive(Drop)]
pub struct Receiver {
    alloc: Global,
    demux: Demux,
    known: KnownSections,
    collector: Collector,
    latest: LatestKeys,
    clock: Option<Moment>,
    offsets: Offsets,
}

impl Model for Receiver {
    ghost use Rattle.guide_receiver.specs.Latest.{kept_keys};
    ghost use Rattle.guide_receiver.specs.Heard.{Hearing};
    ghost use Rattle.guide_receiver.specs.Known.{AreKnown};

    ghost Value = { Hearing };

    ghost view = { λ r. record { demux = r.demux; collector = r.collector; latest = kept_keys r.latest; clock = r.clock; offsets = r.offsets } };

    ghost invariant = { λ r. AreKnown r.collector r.known };
}

impl Receiver {
    /// A receiver that has heard nothing. It takes no memory.
    pub fn open(alloc: Global) -> Receiver
        ensures { ReceiverStandsFor [] result }
    {
        Receiver {
            alloc,
            demux: Demux::open(alloc),
            known: KnownSections::none(alloc),
            collector: Collector::open(alloc),
            latest: LatestKeys::open(alloc),
            clock: None,
            offsets: Items::new(alloc),
        }
    }

    /// Hears one packet more: the completions that it shows, in order. `Sync` comes exactly where the first byte is not 0x47, and
    /// then the receiver is unchanged. `TooMany` comes exactly where the sections that count, those that end in this packet included,
    /// have more than 65,536 keys. After it and after `Memory` a part of the packet's sections may have been taken, and the
    /// receiver stands for no packets.
    pub fn hear(&mut self, packet: &[u8; 188]) -> Result<Dones, HearStop>
        ensures sync { result ≡ Err HearStop.Sync ↔ (slice_index packet.now 0 ≢ 0x47) }
        ensures unchanged { result ≡ Err HearStop.Sync → self.new ≡ self.old }
        ensures too_many_after { (earlier : List RawSection) (packets : List (List ℕ))
            (taken : List Taken) → ReceiverStandsAfter earlier packets taken self.old
            → result ≡ Err HearStop.TooMany
            → HaveTooManyKeys (sections_taken taken ++ counted_among (ended_by packets packet.now)) }
        ensures dones_after { (earlier : List RawSection) (packets : List (List ℕ))
            (taken : List Taken) → ReceiverStandsAfter earlier packets taken self.old
            → IfOk result (λ dones. dones
            ≡ map done_key (dones_over taken (took_by packets packet.now))) }
        ensures stands_after { (earlier : List RawSection) (packets : List (List ℕ))
            (taken : List Taken) → ReceiverStandsAfter earlier packets taken self.old
            → OnOk result (ReceiverStandsAfter earlier (packets ++ packet.now ∷ [])
            (taken ++ took_by packets packet.now) self.new) }
        ensures too_many { (past : List (List ℕ)) → ReceiverStandsFor past self.old
            → result ≡ Err HearStop.TooMany → HaveTooManyKeys (counted_heard (past ++ packet.now ∷ [])) }
        ensures few { (past : List (List ℕ)) → ReceiverStandsFor past self.old
            → OnOk result (HaveFewKeys (counted_heard (past ++ packet.now ∷ []))) }
        ensures dones { (past : List (List ℕ)) → ReceiverStandsFor past self.old → IfOk result (λ dones. dones ≡ dones_by past packet.now) }
        ensures stands { (past : List (List ℕ)) → ReceiverStandsFor past self.old → OnOk result (ReceiverStandsFor (past ++ packet.now ∷ []) self.new) }
    {
        let Ok(shape) = read_packet(packet) else {
            return Err(HearStop::Sync);
        };
        let Ok(sections) = self.demux.hear(packet, &shape) else {
            return Err(HearStop::Memory);
        };
        if sections.is_empty() {
            return Ok(Items::new(self.alloc));
        }
        let Ok(clock) = clock_behind(self.alloc, self.clock, sections.as_slice()) else {
            return Err(HearStop::Memory);
        };
        let Ok(offsets) = offsets_behind(self.alloc, sections.as_slice()) else {
            return Err(HearStop::Memory);
        };
        self.clock = clock;
        keep_last(&mut self.offsets, offsets);
        let mut dones = Items::new(self.alloc);
        match count_all(
            self.alloc,
            &mut self.known,
            &mut self.collector,
            &mut self.latest,
            sections.as_slice(),
            &mut dones,
        ) {
            Ok(()) => Ok(dones),
            Err(TakeStop::TooMany) => Err(HearStop::TooMany),
            Err(TakeStop::Memory) => Err(HearStop::Memory),
        }
    }

    /// Adds a mark of a PID: from here on the keys of the PID have no section, until one is taken
    /// (`Collector::forget`). It takes no memory.
    pub fn forget(&mut self, pid: u16)
        ensures { (earlier : List RawSection) (packets : List (List ℕ)) (taken : List Taken)
            → ReceiverStandsAfter earlier packets taken self.old
            → ReceiverStandsAfter earlier packets (taken ++ Forgot pid ∷ []) self.new }
    {
        self.known.next_round(self.alloc);
        self.collector.forget(pid);
    }

    /// Starts afresh, as where a part of the stream could not be read: each PID is as before its first
    /// packet, and no key has a section, until one is taken (`Collector::forget_all`). What stays are
    /// the completions, the keys that were completed last, and the last moment and the last offsets
    /// that were heard. It takes no memory, and its time is that of all keys.
    pub fn restart(&mut self)
        ensures { (earlier : List RawSection) (packets : List (List ℕ)) (taken : List Taken)
            → ReceiverStandsAfter earlier packets taken self.old
            → ReceiverStandsAfter (earlier ++ heard_all [] packets) []
            (taken ++ ForgotAll ∷ []) self.new }
    {
        self.demux = Demux::open(self.alloc);
        self.known = KnownSections::none(self.alloc);
        self.collector.forget_all();
    }

    /// Whether a load goes on with the last load of its PID, as `Demux::follows` says. It takes no memory.
    pub fn follows(&self, packet: &[u8; 188], shape: &Shape) -> Option<bool>
        requires { shape_in packet.now ≡ Ok shape.now }
        ensures { (earlier : List RawSection) (packets : List (List ℕ)) (taken : List Taken)
            → ReceiverStandsAfter earlier packets taken self.now
            → result ≡ follows_in packets packet.now }
    {
        self.demux.follows(packet, shape)
    }

    /// What the receiver has to show of the packets that it stands for: the needs that are not met, of which there is one at least, or
    /// else the whole screen (EN 300 468, 5.2). Its time is that of `heard_guide`.
    pub fn guide(&self) -> Result<Heard, AllocError>
        ensures after { (earlier : List RawSection) (packets : List (List ℕ)) (taken : List Taken)
            → ReceiverStandsAfter earlier packets taken self.now
            → IfOk result (λ heard. heard ≡ heard_of (view_after earlier packets taken)) }
        ensures heard { (past : List (List ℕ)) → ReceiverStandsFor past self.now
            → IfOk result (λ heard. heard ≡ guide_of past) }
    {
        let latest = self.latest();
        let others = self.others()?;
        heard_guide(
            self.alloc,
            self.collector(),
            latest,
            self.offsets(),
            &others,
        )
    }

    /// The collector of its sections.
    pub fn collector(&self) -> &Collector
        ensures { result.now ≡ self.now.collector }
    {
        &self.collector
    }

    /// The keys of the PAT, the NIT and the SDT that it completed last, and the last moment that it
    /// heard.
    pub fn latest(&self) -> Latest
        ensures { (earlier : List RawSection) (packets : List (List ℕ)) (taken : List Taken)
            → ReceiverStandsAfter earlier packets taken self.now
            → Holds self.now.collector result (view_after earlier packets taken) }
    {
        Latest {
            pat: self.latest.pat,
            nit: self.latest.nit,
            sdt: self.latest.sdt(),
            clock: self.clock,
        }
    }

    /// The keys of the SDTs of other streams that it completed, by transport_stream_id, and then
    /// original_network_id.
    pub fn others(&self) -> Result<Vec<Key>, AllocError>
        ensures { IfOk result (λ others. others.items ≡ self.now.latest.others) }
    {
        self.latest.others(self.alloc)
    }

    /// The last offsets that it heard.
    pub fn offsets(&self) -> &[Offset]
        ensures { result.now ≡ self.now.offsets }
    {
        self.offsets.as_slice()
    }
}

// Counts these sections, keeps the keys that they complete, and appends the completions that they show.
fn count_all(
    alloc: Global,
    known: &mut KnownSections,
    collector: &mut Collector,
    latest: &mut LatestKeys,
    sections: &[RawSection],
    shown: &mut Dones,
) -> Result<(), TakeStop>
    requires known { AreKnown collector.old known.old }
    ensures known { AreKnown collector.new known.new }
    ensures too_many { (past : List Taken) → CollectorStandsOver past collector.old
        → result ≡ Err TakeStop.TooMany
        → HaveTooManyKeys (sections_taken past ++ counted_among sections.now) }
    ensures dones { (past : List Taken) → CollectorStandsOver past collector.old
        → OnOk result (shown.new
        ≡ shown.old ++ map done_key (dones_over past (all_took (counted_among sections.now)))) }
    ensures stands { (past : List Taken) → CollectorStandsOver past collector.old → OnOk result
        (CollectorStandsOver (past ++ all_took (counted_among sections.now)) collector.new) }
    ensures latest { (past : List Taken) → CollectorStandsOver past collector.old
        → AreLatest (keys_shown_over past) (kept_keys latest.old) → OnOk result (AreLatest
        (keys_shown_over (past ++ all_took (counted_among sections.now))) (kept_keys latest.new)) }
{
    for section in sections {
        let done = match count(alloc, known, collector, section) {
            Ok(done) => done,
            Err(stop) => return Err(stop),
        };
        let Ok(()) = keep_shown(latest, shown, done) else {
            return Err(TakeStop::Memory);
        };
    }
    Ok(())
}

// Counts a section, and gives the completion that it shows. A carousel repeats its sections for ever: what counted last is compared, and
// not read again.
fn count(
    alloc: Global,
    known: &mut KnownSections,
    collector: &mut Collector,
    section: &RawSection,
) -> Result<Option<DoneKey>, TakeStop>
    requires known { AreKnown collector.old known.old }
    ensures known { AreKnown collector.new known.new }
    ensures too_many { (past : List Taken) → CollectorStandsOver past collector.old
        → result ≡ Err TakeStop.TooMany
        → HaveTooManyKeys (sections_taken past ++ option_to_list (counted_in section.now)) }
    ensures done { (past : List Taken) → CollectorStandsOver past collector.old
        → IfOk result (λ done. option_to_list done
        ≡ map done_key (dones_over past (all_took (option_to_list (counted_in section.now))))) }
    ensures stands { (past : List Taken) → CollectorStandsOver past collector.old → OnOk result
        (CollectorStandsOver (past ++ all_took (option_to_list (counted_in section.now))) collector.new) }
{
    if known.counts_again(collector, section) {
        return Ok(None);
    }
    let Ok(found) = known.counted_section(alloc, section) else {
        return Err(TakeStop::Memory);
    };
    let Some(counts) = found else {
        return Ok(None);
    };
    let CountedSection { key, header, body } = counts;
    known.next_round(alloc);
    let shown = collector.take(key, &header, body)?;
    Ok(match shown {
        Some(version) => Some(DoneKey { key, version }),
        None => None,
    })
}

// Appends a completion, where there is one, and keeps its key.
fn keep_shown(
    latest: &mut LatestKeys,
    shown: &mut Dones,
    done: Option<DoneKey>,
) -> Result<(), AllocError>
    ensures shown { OnOk result (shown.new ≡ shown.old ++ option_to_list done) }
    ensures latest { (keys : List Key) → AreLatest keys (kept_keys latest.old)
        → OnOk result (AreLatest (keys ++ map (λ (d : DoneKey). d.key) (option_to_list done)) (kept_keys latest.new)) }
{
    let Some(done) = done else {
        return Ok(());
    };
    latest.complete(done.key)?;
    match shown.push(done) {
        Ok(()) => Ok(()),
        Err(_) => Err(AllocError),
    }
}
