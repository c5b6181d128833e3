//! Rings of joints, linked by index in both directions.

ghost use Rattle.std.specs.Prelude.{◌≡◌, ◌<◌, ◌+◌, ◌*◌, ℕ, false, Ok, length, ◌^◌, OnOk, OnErr, [], ◌∷◌, ◌++◌};
ghost use Rattle.std.specs.Prelude.{if◌then◌else◌, ◌==◌};
ghost use Rattle.td_store.specs.Rings.{AreLinked, Linked-prop, IsLink, with_last, loop, after};
ghost use Rattle.td_store.specs.Slabs.{is_in, without};

use crate::joint::Joint;
use std::alloc::Global;
use td_cdr::Memory;

/// Rows of three joints: joint 3k closes ring k, joints 3k + 1 and 3k + 2 are the two links of place k.
#[derive(Drop)]
pub(crate) struct Rings {
    pub(crate) joints: Vec<Joint>,
    /// The places reached over the joints of each ring.
    pub(crate) ghost linked: { AreLinked joints.items } by { Linked-prop joints.items },
}

impl Rings {
    /// No rows: every ring is empty.
    pub(crate) fn new(alloc: Global) -> Rings
        ensures none { result.joints.items ≡ [] }
        ensures empty { (k : ℕ) → result.linked.0 k ≡ [] }
    {
        Rings {
            joints: Vec::new(alloc),
        }
    }

    /// One row more, whose ring is empty and whose links are on no ring.
    ///
    /// # Errors
    ///
    /// `Memory` only when out of memory; nothing has then changed.
    pub(crate) fn grow(&mut self) -> Result<(), Memory>
        ensures ok { OnOk result (length self.new.joints.items ≡ length self.old.joints.items + 3) }
        ensures err { OnErr result (length self.new.joints.items ≡ length self.old.joints.items) }
        ensures rings { (k : ℕ) → self.new.linked.0 k ≡ self.old.linked.0 k }
    {
        let n = self.joints.len();
        let row = [alone(n), alone(n + 1), alone(n + 2)];
        match self.joints.extend_from_slice(&row) {
            Err(_) => Err(Memory),
            Ok(()) => Ok(()),
        }
    }

    /// How many joints there are.
    pub(crate) fn len(&self) -> usize
        ensures { result ≡ length self.now.joints.items }
    {
        self.joints.len()
    }

    /// The joint after this one.
    pub(crate) fn after(&self, joint: usize) -> usize
        requires there { joint < length self.now.joints.items }
        ensures value { result ≡ after self.now.joints.items joint }
        ensures within { result < length self.now.joints.items }
    {
        self.joints[joint].after
    }

    /// Whether a link is on a ring.
    pub(crate) fn is_on(&self, link: usize, ring: usize) -> bool
        requires there { link < length self.now.joints.items }
        requires link { IsLink link }
        requires small { ring < 2 ^ 34 }
        ensures value { result ≡ is_in link (self.now.linked.0 ring) }
    {
        self.joints[link].ring == 3 * ring
    }

    /// Takes a link off its ring.
    pub(crate) fn unlink(&mut self, link: usize)
        requires there { link < length self.old.joints.items }
        requires link { IsLink link }
        ensures len { length self.new.joints.items ≡ length self.old.joints.items }
        ensures rings { (k : ℕ) → self.new.linked.0 k ≡ without link (self.old.linked.0 k) }
    {
        let Joint { after, before, .. } = self.joints[link];
        self.joints[before].after = after;
        self.joints[after].before = before;
        self.joints[link] = alone(link);
    }

    /// Puts a link that is on no ring at the end of one.
    pub(crate) fn append(&mut self, link: usize, ring: usize)
        requires there { link < length self.old.joints.items }
        requires link { IsLink link }
        requires off { (k : ℕ) → is_in link (self.old.linked.0 k) ≡ false }
        requires ring { 3 * ring < length self.old.joints.items }
        ensures len { length self.new.joints.items ≡ length self.old.joints.items }
        ensures rings { (k : ℕ) → self.new.linked.0 k ≡ with_last ring link self.old.linked.0 k }
    {
        let close = 3 * ring;
        let before = self.joints[close].before;
        self.joints[before].after = link;
        self.joints[close].before = link;
        self.joints[link] = Joint {
            after: close,
            before,
            ring: close,
        };
    }
}

/// A joint on no ring.
fn alone(joint: usize) -> Joint
    ensures { result ≡ loop joint }
{
    Joint {
        after: joint,
        before: joint,
        ring: joint,
    }
}
