ghost use Rattle.std.specs.Prelude.{◌≡◌, ◌==◌, length, IfOk};
ghost use Rattle.cx_fields.specs.Reading.{Gives, unread, bytes_at, byte_at, number_at, number_in, byte_in, zero_at, text_at, flag_at, head_at, from_start};
ghost use Rattle.cx_fields.specs.declared.fault.ReadFault.TheVariants.{Bad};

use crate::fault::{BytesFault, ReadFault, Why};
use byteorder::{BigEndian, ByteOrder};
use cx_outside::Text;
use std::alloc::Global;

/// The largest file has so many bytes.
const FILE_LIMIT: usize = 134_217_728;

/// The bytes of a file that are not read yet, with their place. (This project's own.)
#[derive(Clone, Copy, Debug)]
pub struct Rest<'a> {
    at: u32,
    bytes: &'a [u8],
}

impl<'a> Rest<'a> {
    /// All bytes of a file. (This project's own.)
    pub fn new(bytes: &'a [u8]) -> Self
        ensures { unread result ≡ from_start bytes.now }
    {
        Rest { at: 0, bytes }
    }

    /// Whether every byte has been read. (This project's own.)
    pub fn is_empty(self) -> bool
        ensures { result ≡ (length (unread self.entry).bytes == 0) }
    {
        self.bytes.is_empty()
    }

    /// The fault that a field has which begins here. (This project's own.)
    pub fn fault(self, why: Why) -> ReadFault
        ensures { result ≡ Bad (record { at = (unread self.entry).at; why = why }) }
    {
        ReadFault::Bad(BytesFault { at: self.at, why })
    }

    #[tactic(auto, unfolding(crate::specs::Reading::bytes_at))]
    fn bytes_of(self, count: usize) -> Result<(&'a [u8], Rest<'a>), ReadFault>
        ensures reads { Gives (λ x. (x.0.now, unread x.1)) result (bytes_at count (unread self.entry)) }
        ensures length { IfOk result (λ x. length x.0.now ≡ count) }
    {
        if self.bytes.len() < count {
            return Err(self.fault(Why::Cut));
        }
        if self.at as usize > FILE_LIMIT || count > FILE_LIMIT - self.at as usize {
            return Err(self.fault(Why::Limit));
        }
        let (field, bytes) = self.bytes.split_at(count);
        let at = self.at + count as u32;
        Ok((field, Rest { at, bytes }))
    }

    /// A byte, and what follows it. (This project's own.)
    ///
    /// `Bad`: the field is cut, or it ends past the largest file.
    #[tactic(auto, unfolding(crate::specs::Reading::byte_at))]
    pub fn byte(self) -> Result<(u8, Rest<'a>), ReadFault>
        ensures { Gives (λ x. (x.0, unread x.1)) result (byte_at (unread self.entry)) }
    {
        let (bytes, rest) = self.bytes_of(1)?;
        Ok((bytes[0], rest))
    }

    /// A number of four bytes, the high one first, and what follows it. (This project's own.)
    ///
    /// `Bad`: the field is cut, or it ends past the largest file.
    #[tactic(auto, unfolding(crate::specs::Reading::number_at))]
    pub fn number(self) -> Result<(u32, Rest<'a>), ReadFault>
        ensures { Gives (λ x. (x.0, unread x.1)) result (number_at (unread self.entry)) }
    {
        let (bytes, rest) = self.bytes_of(4)?;
        Ok((BigEndian::read_u32(bytes), rest))
    }

    /// A number from `low` up to the one before `end`, and what follows it; `why` is the reason for any other number. (This
    /// project's own.)
    ///
    /// `Bad`: the field is cut, ends past the largest file, or its value isn't allowed.
    #[tactic(auto, unfolding(crate::specs::Reading::number_in))]
    pub fn number_in(self, low: u32, end: u64, why: Why) -> Result<(u32, Rest<'a>), ReadFault>
        ensures { Gives (λ x. (x.0, unread x.1)) result (number_in low end why (unread self.entry)) }
    {
        let (number, rest) = self.number()?;
        if number < low || u64::from(number) >= end {
            return Err(self.fault(why));
        }
        Ok((number, rest))
    }

    /// A byte from `low` up to the one before `end`, and what follows it; `why` is the reason for any other byte. (This
    /// project's own.)
    ///
    /// `Bad`: the field is cut, ends past the largest file, or its value isn't allowed.
    #[tactic(auto, unfolding(crate::specs::Reading::byte_in))]
    pub fn byte_in(self, low: u8, end: u8, why: Why) -> Result<(u8, Rest<'a>), ReadFault>
        ensures { Gives (λ x. (x.0, unread x.1)) result (byte_in low end why (unread self.entry)) }
    {
        let (byte, rest) = self.byte()?;
        if byte < low || byte >= end {
            return Err(self.fault(why));
        }
        Ok((byte, rest))
    }

    /// A number that must be zero, and what follows it. (This project's own.)
    ///
    /// `Bad`: the field is cut, ends past the largest file, or its value isn't allowed.
    #[tactic(auto, unfolding(crate::specs::Reading::zero_at))]
    pub fn zero(self) -> Result<(u32, Rest<'a>), ReadFault>
        ensures { Gives (λ x. (x.0, unread x.1)) result (zero_at (unread self.entry)) }
    {
        self.number_in(0, 1, Why::Range)
    }

    /// A byte that is 1 for true and 0 for false, and what follows it. (This project's own.)
    ///
    /// `Bad`: the field is cut, ends past the largest file, or its value isn't allowed.
    #[tactic(auto, unfolding(crate::specs::Reading::flag_at))]
    pub fn flag(self) -> Result<(bool, Rest<'a>), ReadFault>
        ensures { Gives (λ x. (x.0, unread x.1)) result (flag_at (unread self.entry)) }
    {
        let (byte, rest) = self.byte_in(0, 2, Why::Range)?;
        Ok((byte == 1, rest))
    }

    /// A text, which is its length and its bytes, and what follows it. (This project's own.)
    ///
    /// - `OutOfMemory`: there was no memory for it.
    /// - `Bad`: one of its two fields is cut or ends past the largest file, or the length passes that of the largest file.
    #[tactic(auto, unfolding(crate::specs::Reading::text_at))]
    pub fn text(self, alloc: Global) -> Result<(Text, Rest<'a>), ReadFault>
        ensures { Gives (λ x. (x.0, unread x.1)) result (text_at (unread self.entry)) }
    {
        let (count, rest) = self.number_in(0, 134_217_729, Why::Limit)?;
        let (bytes, rest) = rest.bytes_of(count as usize)?;
        Ok((Text::copy_of(alloc, bytes)?, rest))
    }

    /// What a file begins with: the word of its format as a number, and version 1. (This project's own.)
    ///
    /// `Bad`: one of the two is cut or another one.
    #[tactic(auto, unfolding(crate::specs::Reading::head_at))]
    pub fn head(self, word: u32) -> Result<(u8, Rest<'a>), ReadFault>
        ensures { Gives (λ x. (x.0, unread x.1)) result (head_at word (unread self.entry)) }
    {
        let (_, rest) = self.number_in(word, u64::from(word) + 1, Why::Magic)?;
        rest.byte_in(1, 2, Why::Version)
    }
}
