// A section that counted.
ghost use Rattle.std.specs.Prelude.{◌≡◌, ◌≤◌, Some, IfOk, length, true};
ghost use Rattle.section_codec.specs.Section.{long_body};
ghost use Rattle.sub_collect.specs.Runs.{counted};
ghost use Rattle.guide_receiver.specs.Counting.{counted_in};

use crate::CountedSection;
use section_codec::{Key, LongHeader};
use si_base::Items;
use std::alloc::{AllocError, Global};
use ts_demux::RawSection;

// A section that counted, with its key and its header, and the round in which the collector was seen to hold it, or 0.
#[derive(Drop)]
pub(crate) struct KnownSection {
    pub(crate) key: Key,
    pub(crate) header: LongHeader,
    pub(crate) raw: RawSection,
    pub(crate) round: u64,
    ghost counts: { counted_in raw ≡ Some (counted key header (long_body raw.bytes)) },
}

impl KnownSection {
    // Whether it is this section.
    pub(crate) fn is_of(&self, section: &RawSection) -> bool
        ensures { result ≡ true → self.now.raw ≡ section.now }
    {
        self.raw.pid == section.pid && self.raw.bytes.as_slice() == section.bytes.as_slice()
    }

    // The section that counted. It is not read again.
    pub(crate) fn copy(&self, alloc: Global) -> Result<CountedSection, AllocError>
        requires { 12 ≤ length self.now.raw.bytes }
        ensures { IfOk result (λ s. counted_in self.now.raw ≡ Some (counted s.key s.header s.body)) }
    {
        let body = Items::of(Vec::from_slice(alloc, self.body())?);
        Ok(CountedSection {
            key: self.key,
            header: self.header,
            body,
        })
    }

    // What stands between the header and the CRC.
    pub(crate) fn body(&self) -> &[u8]
        requires { 12 ≤ length self.now.raw.bytes }
        ensures { result.now ≡ long_body self.now.raw.bytes }
    {
        let bytes = self.raw.bytes.as_slice();
        let (_, behind) = bytes.split_at(8);
        let (body, _) = behind.split_at(bytes.len() - 12);
        body
    }
}
