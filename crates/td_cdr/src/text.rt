//! Text as bytes: CORBA 2.0 strings are bytes without NUL, in no stated character set.

ghost use Rattle.std.specs.Prelude.{◌≡◌, ◌≤◌, [], ◌↔◌, length, IsTrue, IfOk};
ghost use Rattle.td_cdr.specs.Text.{has_nul};

use crate::memory::Memory;
use crate::twin::Twin;
use std::alloc::Global;
use std::marker::Model;
use std::ops::DerefSlice;

/// How many bytes a text has at the most that stands in place.
const SHORT: usize = 30;

/// A text, as its bytes. It may hold any byte; a call that spells it as a string has the condition
/// that it holds no NUL. One of at most 30 bytes takes no memory but its own.
#[derive(Debug)]
pub struct Text {
    bytes: Bytes,
}

/// Where the bytes stand.
#[derive(Debug)]
enum Bytes {
    /// In place: the first `len`.
    Short { bytes: [u8; 30], len: u8 },
    Long(Vec<u8>),
}

// By hand, since a derived drop is written out at each exit, and proved again in each crate above.
impl Drop for Bytes {
    fn drop(self) {
        match self {
            Bytes::Short {
                bytes: _bytes,
                len: _len,
            } => (),
            Bytes::Long(_bytes) => (),
        }
    }
}

impl Drop for Text {
    fn drop(self) {
        let Text { bytes: _bytes } = self;
    }
}

impl Model for Text {
    ghost use Rattle.std.specs.Prelude.{List, ℕ};
    ghost use Rattle.td_cdr.specs.Bytes.{bytes_in, IsWithin};

    ghost Value = { List ℕ };

    ghost view = { λ t. bytes_in t.bytes };

    ghost invariant = { λ t. IsWithin t.bytes };
}

impl Text {
    /// The empty text, which takes no memory.
    pub fn new(_alloc: Global) -> Text
        ensures { result ≡ [] }
    {
        Text {
            bytes: Bytes::Short {
                bytes: [0; 30],
                len: 0,
            },
        }
    }

    /// The text of a `Vec`'s bytes.
    pub fn from_vec(bytes: Vec<u8>) -> Text
        ensures { result ≡ bytes.items }
    {
        Text {
            bytes: Bytes::Long(bytes),
        }
    }

    /// The text of a slice's bytes.
    ///
    /// # Errors
    ///
    /// `Memory` only when out of memory.
    pub fn from_slice(alloc: Global, bytes: &[u8]) -> Result<Text, Memory>
        ensures { IfOk result (λ t. t ≡ bytes.now) }
    {
        if bytes.len() <= SHORT {
            return Ok(Text::short(bytes));
        }
        let bytes = Vec::from_slice(alloc, bytes)?;
        Ok(Text::from_vec(bytes))
    }

    /// The text of so few bytes that they stand in place.
    fn short(bytes: &[u8]) -> Text
        requires { length bytes.now ≤ 30 }
        ensures { result ≡ bytes.now }
    {
        let len = bytes.len();
        let mut place = [0u8; 30];
        place[..len].copy_from_slice(bytes);
        Text {
            bytes: Bytes::Short {
                bytes: place,
                len: len as u8,
            },
        }
    }

    /// A `Vec` of the bytes.
    ///
    /// # Errors
    ///
    /// `Memory` only when out of memory.
    pub fn to_vec(&self, alloc: Global) -> Result<Vec<u8>, Memory>
        ensures { IfOk result (λ v. v.items ≡ self.now) }
    {
        Ok(Vec::from_slice(alloc, self.as_slice())?)
    }

    /// How many bytes there are.
    pub fn len(&self) -> usize
        ensures { result ≡ length self.now }
    {
        self.as_slice().len()
    }

    /// Whether there are none.
    pub fn is_empty(&self) -> bool
        ensures { IsTrue result ↔ (self.now ≡ []) }
    {
        self.as_slice().is_empty()
    }

    /// The bytes in order.
    pub fn as_slice(&self) -> &[u8]
        ensures { result.now ≡ self.now }
    {
        match &self.bytes {
            Bytes::Short { bytes, len } => &bytes[..usize::from(*len)],
            Bytes::Long(bytes) => bytes.as_slice(),
        }
    }
}

impl DerefSlice for Text {
    type Elem = u8;

    ghost deref_gives = { λ t bytes. bytes ≡ t };

    fn deref(&self) -> &[u8] {
        self.as_slice()
    }
}

impl Twin for Text {
    fn copy(&self, alloc: Global) -> Result<Text, Memory> {
        Text::from_slice(alloc, self.as_slice())
    }
}

/// Whether one of the bytes is a NUL, which no string can spell (CORBA, General Inter-ORB
/// Protocol, "Strings and Wide Strings").
pub fn has_nul(bytes: &[u8]) -> bool
    ensures { result ≡ has_nul bytes.now }
{
    bytes.contains(&0)
}
