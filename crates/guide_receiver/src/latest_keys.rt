// The keys that were completed last.
ghost use Rattle.std.specs.Prelude.{◌≡◌, [], List, ◌++◌, ◌∷◌, Some, None, IfOk, OnOk};
ghost use Rattle.std.specs.BTreeMap.{get};
ghost use Rattle.std.specs.Ordering.{nat_cmp};
ghost use Rattle.section_codec.specs.declared.table.Key.{Key};
ghost use Rattle.guide_receiver.specs.Latest.{AreLatest, kept_keys};

use section_codec::Key;
use std::alloc::{AllocError, Global};
use std::collections::{BTreeMap, BTreeSet};

// The keys of the PAT and of the NIT that were completed last, by transport_stream_id those of the SDTs, and those of the SDTs of other
// streams.
#[derive(Drop)]
pub(crate) struct LatestKeys {
    pub(crate) pat: Option<Key>,
    pub(crate) nit: Option<Key>,
    pub(crate) sdts: BTreeMap<u16, Key>,
    pub(crate) others: BTreeSet<Key>,
}

impl LatestKeys {
    // Of no completion. It takes no memory.
    pub(crate) fn open(alloc: Global) -> LatestKeys
        ensures { AreLatest [] (kept_keys result) }
    {
        LatestKeys {
            pat: None,
            nit: None,
            sdts: BTreeMap::new(alloc),
            others: BTreeSet::new(alloc),
        }
    }

    // The key of the SDT of the PAT's transport_stream_id.
    pub(crate) fn sdt(&self) -> Option<Key>
        ensures some { (pat : Key) → self.now.pat ≡ Some pat → result ≡ get nat_cmp self.now.sdts pat.ext }
        ensures none { self.now.pat ≡ None → result ≡ None }
    {
        match self.pat {
            Some(pat) => self.sdts.get(&pat.ext).copied(),
            None => None,
        }
    }

    // The keys of the SDTs of other streams, in their order.
    pub(crate) fn others(&self, alloc: Global) -> Result<Vec<Key>, AllocError>
        ensures { IfOk result (λ others. others.items ≡ self.now.others.keys) }
    {
        let mut others = Vec::with_capacity(alloc, self.others.len())?;
        for key in self.others.iter() {
            others.push(*key)?;
        }
        Ok(others)
    }

    // Keeps a key that was completed.
    pub(crate) fn complete(&mut self, key: Key) -> Result<(), AllocError>
        ensures { (keys : List Key) → AreLatest keys (kept_keys self.old)
            → OnOk result (AreLatest (keys ++ key ∷ []) (kept_keys self.new)) }
    {
        match key.table {
            0x00 => self.pat = Some(key),
            0x40 => self.nit = Some(key),
            0x42 => {
                self.sdts.insert(key.ext, key)?;
            }
            0x46 => {
                self.others.insert(key)?;
            }
            _ => {}
        }
        Ok(())
    }
}
