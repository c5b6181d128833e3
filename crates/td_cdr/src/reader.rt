//! Reading along a borrowed slice, by the rules of CORBA's common data representation.

ghost use Rattle.std.specs.Prelude.{◌≡◌, ◌+◌, ◌^◌, ◌<◌, ◌≤◌, length, drop, MatchResult};
ghost use Rattle.td_cdr.specs.Truth.{truth, order_of};
ghost use Rattle.td_cdr.specs.Text.{text_of};
ghost use Rattle.td_cdr.specs.Lawful.{AreOctets};

use crate::fault::CdrFault;
use crate::order::Order;
use byteorder::{BigEndian, ByteOrder, LittleEndian};
use std::marker::Model;

/// A place in a message, or inside an encapsulation of one. A call reads the value that stands there
/// and moves on behind it; a call that is refused leaves the reader where it was. Alignment counts
/// from the message's first byte, or from the octet that tells the order of the encapsulation, and
/// padding may hold any bytes. Contracts see a reader as `At`: the bytes that are left, where they
/// stand, where alignment counts from, and the order.
#[derive(Drop)]
pub struct Reader<'a> {
    rest: &'a [u8],
    place: u32,
    origin: u32,
    order: Order,
}

impl<'a> Model for Reader<'a> {
    ghost use Rattle.std.specs.Prelude.{◌+◌, ◌^◌, ◌≤◌, ◌<◌, length};
    ghost use Rattle.td_cdr.specs.Place.{At};

    ghost Value = { At };

    ghost view = { λ r. record {
      rest = r.rest.now;
      place = r.place;
      origin = r.origin;
      order = r.order;
    } };

    ghost invariant = { λ r. (r.origin ≤ r.place) × (r.place + length r.rest.now < 2 ^ 32) };
}

impl<'a> Reader<'a> {
    ghost use Rattle.std.specs.Prelude.{IfOk, MatchResult, ◌*◌, take, ◌≡◌, ◌+◌, ◌≤◌, ◌<◌, ◌^◌, length, drop};
    ghost use Rattle.std.specs.Int.{w16, w32, w64};
    ghost use Rattle.td_cdr.specs.Lawful.{AreOctets};
    ghost use Rattle.td_cdr.specs.Reading.{inside, next_aligned, GivesOrStays, cell_at, number_at, signed_at};
    ghost use Rattle.td_cdr.specs.Reading.{boolean_at};
    ghost use Rattle.td_cdr.specs.Reading.{octets_at, string_at, encapsulation_at};

    /// A reader of a message's bytes from this place on. `place` counts from their first byte, from which
    /// alignment counts too.
    pub fn new(bytes: &'a [u8], place: u32, order: Order) -> Reader<'a>
        requires within { place ≤ length bytes.now }
        requires short { length bytes.now < 2 ^ 32 }
        ensures { result ≡ record {
          rest = drop place bytes.now;
          place = place;
          origin = 0;
          order = order;
        } }
    {
        Reader {
            rest: &bytes[place as usize..],
            place,
            origin: 0,
            order,
        }
    }

    /// Where it stands, counted from the message's first byte, inside encapsulations too.
    pub fn place(&self) -> u32
        ensures { result ≡ self.now.place }
    {
        self.place
    }

    /// Where alignment counts from, counted from the message's first byte: that byte, or the octet that tells
    /// the order of an encapsulation.
    pub fn origin(&self) -> u32
        ensures { result ≡ self.now.origin }
    {
        self.origin
    }

    /// What is left of the message or encapsulation.
    pub fn left(&self) -> &'a [u8]
        ensures left { result.now ≡ self.now.rest }
        ensures inside { self.now.origin ≤ self.now.place }
    {
        self.rest
    }

    /// The bytes of a primitive of this size, behind its padding.
    #[tactic(auto, unfolding(crate::specs::Reading::cell_at))]
    fn cell(&mut self, size: u32) -> Result<&'a [u8], CdrFault>
        requires low { 0 < size }
        requires high { size ≤ 8 }
        ensures gives { GivesOrStays (λ b. b.now) self.old self.new result (cell_at size self.old) }
        ensures size { IfOk result (λ b. length b.now ≡ size) }
        ensures place { IfOk result (λ b. self.new.place ≡ next_aligned size self.old + size) }
        ensures order { self.new.order ≡ self.old.order }
    {
        let pad = (size - (self.place - self.origin) % size) % size;
        let wanted = pad + size;
        if self.rest.len() < wanted as usize {
            return Err(CdrFault::Short(self.place.saturating_add(pad)));
        }
        let (front, rest) = self.rest.split_at(wanted as usize);
        self.rest = rest;
        self.place += wanted;
        Ok(&front[pad as usize..])
    }

    /// The next octet, or char.
    ///
    /// # Errors
    ///
    /// `Short` where no byte is left.
    #[tactic(auto, unfolding(crate::specs::Reading::number_at))]
    pub fn octet(&mut self) -> Result<u8, CdrFault>
        ensures { GivesOrStays (λ v. v) self.old self.new result (number_at 1 self.old) }
    {
        let cell = self.cell(1)?;
        Ok(cell[0])
    }

    /// The next unsigned short: two bytes, aligned to 2.
    ///
    /// # Errors
    ///
    /// `Short` where its padding or bytes run past the end.
    #[tactic(auto, unfolding(crate::specs::Reading::number_at))]
    pub fn u16(&mut self) -> Result<u16, CdrFault>
        ensures { GivesOrStays (λ v. v) self.old self.new result (number_at 2 self.old) }
    {
        let cell = self.cell(2)?;
        Ok(match self.order {
            Order::Big => BigEndian::read_u16(cell),
            Order::Little => LittleEndian::read_u16(cell),
        })
    }

    /// The next unsigned long, count or enumerated value: four bytes, aligned to 4.
    ///
    /// # Errors
    ///
    /// `Short` where its padding or bytes run past the end.
    #[tactic(auto, unfolding(crate::specs::Reading::number_at))]
    pub fn u32(&mut self) -> Result<u32, CdrFault>
        ensures gives { GivesOrStays (λ v. v) self.old self.new result (number_at 4 self.old) }
        ensures place { IfOk result (λ v. self.new.place ≡ next_aligned 4 self.old + 4) }
    {
        let cell = self.cell(4)?;
        Ok(match self.order {
            Order::Big => BigEndian::read_u32(cell),
            Order::Little => LittleEndian::read_u32(cell),
        })
    }

    /// The next unsigned long long: eight bytes, aligned to 8.
    ///
    /// # Errors
    ///
    /// `Short` where its padding or bytes run past the end.
    #[tactic(auto, unfolding(crate::specs::Reading::number_at))]
    pub fn u64(&mut self) -> Result<u64, CdrFault>
        ensures { GivesOrStays (λ v. v) self.old self.new result (number_at 8 self.old) }
    {
        let cell = self.cell(8)?;
        Ok(match self.order {
            Order::Big => BigEndian::read_u64(cell),
            Order::Little => LittleEndian::read_u64(cell),
        })
    }

    /// The next short: two bytes, aligned to 2, in two's complement.
    ///
    /// # Errors
    ///
    /// As `u16`.
    #[tactic(auto, unfolding(crate::specs::Reading::signed_at))]
    pub fn i16(&mut self) -> Result<i16, CdrFault>
        ensures { GivesOrStays (λ v. v) self.old self.new result (signed_at w16 2 self.old) }
    {
        Ok(self.u16()?.cast_signed())
    }

    /// The next long: four bytes, aligned to 4, in two's complement.
    ///
    /// # Errors
    ///
    /// As `u32`.
    #[tactic(auto, unfolding(crate::specs::Reading::signed_at))]
    pub fn i32(&mut self) -> Result<i32, CdrFault>
        ensures { GivesOrStays (λ v. v) self.old self.new result (signed_at w32 4 self.old) }
    {
        Ok(self.u32()?.cast_signed())
    }

    /// The next long long: eight bytes, aligned to 8, in two's complement.
    ///
    /// # Errors
    ///
    /// As `u64`.
    #[tactic(auto, unfolding(crate::specs::Reading::signed_at))]
    pub fn i64(&mut self) -> Result<i64, CdrFault>
        ensures { GivesOrStays (λ v. v) self.old self.new result (signed_at w64 8 self.old) }
    {
        Ok(self.u64()?.cast_signed())
    }

    /// The next boolean: an octet that is 0 or 1.
    ///
    /// # Errors
    ///
    /// `Short` where no byte is left; `BadBoolean` where the octet is above 1.
    #[tactic(auto, unfolding(crate::specs::Reading::boolean_at))]
    pub fn boolean(&mut self) -> Result<bool, CdrFault>
        ensures { GivesOrStays (λ v. v) self.old self.new result (boolean_at self.old) }
    {
        let mut next = self.copied();
        let value = truth_of(next.octet()?, self.place)?;
        *self = next;
        Ok(value)
    }

    /// The next sequence of octets: their number as an unsigned long, and then they.
    ///
    /// # Errors
    ///
    /// `Short` where no number can be read; `TooLong` where it is above the bytes that follow it. Both
    /// have the number's place.
    #[tactic(auto, unfolding(crate::specs::Reading::octets_at))]
    pub fn octets(&mut self) -> Result<&'a [u8], CdrFault>
        ensures gives { GivesOrStays (λ b. b.now) self.old self.new result (octets_at self.old) }
        ensures passed { IfOk result (λ b. length b.now ≤ self.new.place) }
    {
        let mut next = self.copied();
        let count = next.u32()?;
        if next.rest.len() < count as usize {
            return Err(CdrFault::TooLong(self.aligned()));
        }
        let (bytes, rest) = next.rest.split_at(count as usize);
        next.rest = rest;
        next.place += count;
        *self = next;
        Ok(bytes)
    }

    /// The next string, without its closing NUL: the number of its bytes as an unsigned long, and then
    /// they, of which the last is a NUL and no other. A string of length 0 is read as an empty one.
    ///
    /// # Errors
    ///
    /// `Short` and `TooLong` as for octets; else `BadString` where the last byte is no NUL, or one before
    /// it is. All have the length's place.
    #[tactic(auto, unfolding(crate::specs::Reading::string_at))]
    pub fn string(&mut self) -> Result<&'a [u8], CdrFault>
        ensures { GivesOrStays (λ b. b.now) self.old self.new result (string_at self.old) }
    {
        let mut next = self.copied();
        let bytes = next.octets()?;
        let text = text_before(bytes, self.aligned())?;
        *self = next;
        Ok(text)
    }

    /// A reader at the same place. What is left is octets, as a slice's type says, and no reader stands
    /// before the byte from which its alignment counts.
    pub fn copied(&self) -> Reader<'a>
        ensures same { result ≡ self.now }
        ensures inside { self.now.origin ≤ self.now.place }
        ensures octets { AreOctets self.now.rest }
    {
        Reader {
            rest: as_octets(self.rest),
            place: self.place,
            origin: self.origin,
            order: self.order,
        }
    }

    /// Where the next unsigned long stands, behind its padding, counted from the message's first byte. A
    /// place past the last that a `u32` can name is that last one.
    pub fn aligned(&self) -> u32
        ensures { result ≡ next_aligned 4 self.now }
    {
        self.place
            .saturating_add((4 - (self.place - self.origin) % 4) % 4)
    }

    /// A reader of the inside of the next encapsulation: a sequence of octets, of which the first tells
    /// the order of the others. It stands behind that octet, from which its alignment counts, and ends
    /// where the octets end. This reader moves on behind them.
    ///
    /// # Errors
    ///
    /// `Short` and `TooLong` as for octets, and `Short` for an encapsulation of length 0, at the length's
    /// place; `BadBoolean` at the octet that tells the order where it is above 1.
    #[tactic(auto, unfolding(crate::specs::Reading::encapsulation_at))]
    pub fn encapsulation(&mut self) -> Result<Reader<'a>, CdrFault>
        ensures { GivesOrStays (λ r. r) self.old self.new result (encapsulation_at self.old) }
    {
        let mut next = self.copied();
        let bytes = next.octets()?;
        let inner = Reader::inside(bytes, self.aligned(), next.place)?;
        *self = next;
        Ok(inner)
    }

    /// A reader over octets that end at `end`, the first of which tells the order. Their length is at `place`.
    fn inside(bytes: &'a [u8], place: u32, end: u32) -> Result<Reader<'a>, CdrFault>
        requires before { length bytes.now ≤ end }
        requires in_range { end < 2 ^ 32 }
        ensures { MatchResult result (λ r. inside place end bytes.now ≡ Ok r)
            (λ e. inside place end bytes.now ≡ Err e) }
    {
        let Some((flag, rest)) = bytes.split_first() else {
            return Err(CdrFault::Short(place));
        };
        let origin = end - bytes.len() as u32;
        let order = order_of(truth_of(*flag, origin)?);
        Ok(Reader {
            rest,
            place: origin + 1,
            origin,
            order,
        })
    }
}

/// The same bytes: the contract says what a slice's type says, which is known of a parameter alone.
fn as_octets(bytes: &[u8]) -> &[u8]
    ensures same { result.now ≡ bytes.now }
    ensures octets { AreOctets bytes.now }
{
    bytes
}

/// The truth value that a byte stands for.
fn truth_of(byte: u8, place: u32) -> Result<bool, CdrFault>
    ensures { result ≡ truth place byte }
{
    match byte {
        0 => Ok(false),
        1 => Ok(true),
        _ => Err(CdrFault::BadBoolean(place)),
    }
}

/// What stands before the closing NUL of a string's bytes, which have their length at `place`.
fn text_before(bytes: &[u8], place: u32) -> Result<&[u8], CdrFault>
    ensures { MatchResult result (λ t. text_of place bytes.now ≡ Ok t.now)
        (λ e. text_of place bytes.now ≡ Err e) }
{
    if bytes.is_empty() {
        return Ok(bytes);
    }
    let (text, last) = bytes.split_at(bytes.len() - 1);
    if last[0] == 0 && !text.contains(&0) {
        Ok(text)
    } else {
        Err(CdrFault::BadString(place))
    }
}

fn order_of(little: bool) -> Order
    ensures { result ≡ order_of little }
{
    if little { Order::Little } else { Order::Big }
}
