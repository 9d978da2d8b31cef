// The body of a cycle: for each chunk of Far, all Near sections and then the chunk.
ghost use Rattle.std.specs.Prelude.{◌≡◌, ◌<◌, ◌↔◌, [], ◌∷◌, IfSome, IfNone, IsTrue, slice_index, length};

use std::alloc::Global;
use std::marker::Model;

// What is still to come of the body: Near from `near_at` on, then Far from `far_at` on; the chunk that is being sent wants so many packets still.
#[derive(Drop)]
pub(crate) struct Body {
    pub(crate) sizes: Vec<u32>,
    pub(crate) near_from: usize,
    pub(crate) far_from: usize,
    pub(crate) near_packets: u128,
    pub(crate) near_at: usize,
    pub(crate) far_at: usize,
    pub(crate) wants: u128,
}

impl Model for Body {
    ghost use Rattle.air_model.specs.Cursor.{Rest};

    ghost Value = { Rest };

    ghost use Rattle.air_model.specs.BodyView.{rest_of, IsBody};

    ghost view = { rest_of };

    ghost invariant = { IsBody };
}

impl Body {
    /// The end of a body without a section.
    pub(crate) fn ended(alloc: Global) -> Body
        ensures { result.items ≡ [] }
    {
        Body {
            sizes: Vec::new(alloc),
            near_from: 0,
            far_from: 0,
            near_packets: 0,
            near_at: 0,
            far_at: 0,
            wants: 0,
        }
    }

    /// The next section of the body, or None at its end.
    pub(crate) fn next(&mut self) -> Option<usize>
        ensures some { IfSome result (λ i. self.old.items ≡ i ∷ self.new.items) }
        ensures bound { IfSome result (λ i. i < length self.new.sizes) }
        ensures none { IfNone result ((self.old.items ≡ []) × (self.new.items ≡ [])) }
        ensures sizes { self.new.sizes ≡ self.old.sizes }
    {
        if self.near_at < self.far_from {
            let index = self.near_at;
            self.near_at += 1;
            return Some(index);
        }
        if self.far_at >= self.sizes.len() {
            return None;
        }
        let index = self.far_at;
        self.far_at += 1;
        let size = u128::from(self.sizes[index]);
        if size < self.wants {
            self.wants -= size;
        } else if self.far_at < self.sizes.len() {
            self.near_at = self.near_from;
            self.wants = self.near_packets;
        }
        Some(index)
    }

    /// Whether nothing of the body is to come.
    pub(crate) fn is_done(&self) -> bool
        ensures { IsTrue result ↔ (self.now.items ≡ []) }
    {
        self.near_at == self.far_from && self.far_at == self.sizes.len()
    }

    /// How many packets a section has.
    pub(crate) fn size(&self, index: usize) -> u32
        requires { index < length self.now.sizes }
        ensures { result ≡ slice_index self.now.sizes index }
    {
        self.sizes[index]
    }
}
