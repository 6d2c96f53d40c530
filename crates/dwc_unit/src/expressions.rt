//! Expressions of entries and of location lists. (DWARF 4, sections 2.5 and 7.7.)
ghost use Rattle.std.specs.Prelude.{◌≡◌, ◌++◌, ◌∷◌, [], ◌<◌, ◌^◌, IfOk, OnErr, OnOk, length, pos, negsuc};
ghost use Rattle.dwc_base.specs.NumberBytes.{uleb_bytes, sleb_bytes};
ghost use Rattle.dwc_unit.specs.ExpressionBytes.{held_bytes};

use crate::few_bytes::FewBytes;
use std::alloc::{AllocError, Global};
use std::marker::Model;

// Bytes, in line where they are few.
#[derive(Drop)]
pub(crate) enum Bytes {
    Few(FewBytes),
    Many(Box<Vec<u8>>),
}

/// A DWARF expression, as its bytes. A short one takes no memory beside its own. (DWARF 4, sections 2.5 and 7.7.)
#[derive(Drop)]
pub struct Expression {
    alloc: Global,
    bytes: Bytes,
}

impl Model for Expression {
    ghost use Rattle.std.specs.Prelude.{ℕ, List};

    ghost Value = { List ℕ };

    ghost use Rattle.dwc_unit.specs.ExpressionBytes.{held_bytes};

    ghost view = { λ e. held_bytes e.bytes };
}

impl Expression {
    /// An expression of no bytes.
    pub fn new(alloc: Global) -> Expression
        ensures { result ≡ [] }
    {
        Expression {
            alloc,
            bytes: Bytes::Few(FewBytes::new()),
        }
    }

    /// The expression of some bytes. They are not looked into.
    ///
    /// # Errors
    /// `AllocError` for want of memory.
    pub fn from_slice(alloc: Global, bytes: &[u8]) -> Result<Expression, AllocError>
        ensures { IfOk result (λ e. e ≡ bytes.now) }
    {
        let mut expression = Expression::new(alloc);
        expression.extend_from_slice(bytes)?;
        Ok(expression)
    }

    /// Its bytes.
    pub fn as_slice(&self) -> &[u8]
        ensures { result.now ≡ self.now }
    {
        slice_of(&self.bytes)
    }

    /// How many bytes it has.
    pub fn len(&self) -> usize
        ensures count { result ≡ length self.now }
        ensures most { result < 2 ^ 63 }
    {
        length_of(&self.bytes)
    }

    // The bytes as they are held.
    pub(crate) fn into_bytes(self) -> Bytes
        ensures { held_bytes result ≡ self }
    {
        self.bytes
    }

    // That it is no longer than memory is.
    pub(crate) fn know_length(&self)
        ensures { length self.now < 2 ^ 64 }
    {
        let _known = self.len();
    }

    /// Puts a byte behind its bytes.
    ///
    /// # Errors
    /// `AllocError` for want of memory; its bytes are as before then.
    #[inline(always)]
    pub fn push(&mut self, byte: u8) -> Result<(), AllocError>
        ensures bytes { OnOk result (self.new ≡ self.old ++ byte ∷ []) }
        ensures kept { OnErr result (self.new ≡ self.old) }
    {
        self.extend_from_slice(&[byte])
    }

    /// Puts bytes behind its bytes.
    ///
    /// # Errors
    /// `AllocError` for want of memory; its bytes are as before then.
    #[inline(always)]
    pub fn extend_from_slice(&mut self, more: &[u8]) -> Result<(), AllocError>
        ensures bytes { OnOk result (self.new ≡ self.old ++ more.now) }
        ensures kept { OnErr result (self.new ≡ self.old) }
    {
        extend(self.alloc, &mut self.bytes, more)
    }

    /// Puts an unsigned LEB128 number behind its bytes, as short as it can be. (DWARF 4, section 7.6.)
    ///
    /// # Errors
    /// `AllocError` for want of memory; its bytes are as before then.
    pub fn put_uleb(&mut self, value: u64) -> Result<(), AllocError>
        ensures bytes { OnOk result (self.new ≡ self.old ++ uleb_bytes value) }
        ensures kept { OnErr result (self.new ≡ self.old) }
    {
        let mut number = Expression::new(self.alloc);
        number.push_uleb(value)?;
        self.extend_from_slice(number.as_slice())
    }

    // Pushes the bytes of a number one by one.
    fn push_uleb(&mut self, value: u64) -> Result<(), AllocError>
        ensures { OnOk result (self.new ≡ self.old ++ uleb_bytes value) }
    {
        let mut rest = value;
        while rest >= 128 {
            self.push((128 + rest % 128) as u8)?;
            rest /= 128;
        }
        self.push(rest as u8)?;
        Ok(())
    }

    /// Puts a signed LEB128 number behind its bytes, as short as it can be. (DWARF 4, section 7.6.)
    ///
    /// # Errors
    /// `AllocError` for want of memory; its bytes are as before then.
    pub fn put_sleb(&mut self, value: i64) -> Result<(), AllocError>
        ensures bytes { OnOk result (self.new ≡ self.old ++ sleb_bytes value) }
        ensures kept { OnErr result (self.new ≡ self.old) }
    {
        let mut number = Expression::new(self.alloc);
        number.push_sleb(value)?;
        self.extend_from_slice(number.as_slice())
    }

    // Pushes the bytes of a number one by one.
    fn push_sleb(&mut self, value: i64) -> Result<(), AllocError>
        ensures { OnOk result (self.new ≡ self.old ++ sleb_bytes value) }
    {
        if value < 0 {
            self.push_sleb_below_0((-(value + 1)) as u64)
        } else {
            self.push_sleb_from_0(value as u64)
        }
    }

    fn push_sleb_from_0(&mut self, value: u64) -> Result<(), AllocError>
        ensures { OnOk result (self.new ≡ self.old ++ sleb_bytes (pos value)) }
    {
        let mut rest = value;
        while rest >= 64 {
            self.push((128 + rest % 128) as u8)?;
            rest /= 128;
        }
        self.push(rest as u8)?;
        Ok(())
    }

    // The number that is so much below -1.
    fn push_sleb_below_0(&mut self, value: u64) -> Result<(), AllocError>
        ensures { OnOk result (self.new ≡ self.old ++ sleb_bytes (negsuc value)) }
    {
        let mut rest = value;
        while rest >= 64 {
            self.push((255 - rest % 128) as u8)?;
            rest /= 128;
        }
        self.push((127 - rest) as u8)?;
        Ok(())
    }
}

// The bytes that are held.
fn slice_of(held: &Bytes) -> &[u8]
    ensures { result.now ≡ held_bytes held.now }
{
    match held {
        Bytes::Few(bytes) => bytes.as_slice(),
        Bytes::Many(bytes) => bytes.as_slice(),
    }
}

// How many bytes are held.
fn length_of(held: &Bytes) -> usize
    ensures count { result ≡ length (held_bytes held.now) }
    ensures most { result < 2 ^ 63 }
{
    match held {
        Bytes::Few(bytes) => bytes.len(),
        Bytes::Many(bytes) => bytes.len(),
    }
}

// Puts bytes behind those that are held.
#[inline(always)]
fn extend(alloc: Global, held: &mut Bytes, more: &[u8]) -> Result<(), AllocError>
    ensures bytes { OnOk result (held_bytes held.new ≡ held_bytes held.old ++ more.now) }
    ensures kept { OnErr result (held_bytes held.new ≡ held_bytes held.old) }
{
    match held {
        Bytes::Few(few) => {
            if more.len() <= few.room() {
                few.extend_from_slice(more);
                return Ok(());
            }
            let many = joined(alloc, few.as_slice(), more)?;
            *held = Bytes::Many(many);
            Ok(())
        }
        Bytes::Many(many) => many.extend_from_slice(more),
    }
}

// Bytes behind others.
#[inline(never)]
fn joined(alloc: Global, front: &[u8], more: &[u8]) -> Result<Box<Vec<u8>>, AllocError>
    ensures { IfOk result (λ many. many.value.items ≡ front.now ++ more.now) }
{
    let mut bytes = Vec::from_slice(alloc, front)?;
    bytes.extend_from_slice(more)?;
    Ok(Box::new(alloc, bytes)?)
}
