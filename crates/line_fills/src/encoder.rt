// The record of some values: whole numbers straight, any other value by its type and its bytes.
ghost use Rattle.std.specs.Prelude.{◌≡◌, ◌<◌, ◌≤◌, ◌^◌, [], ◌∷◌, ◌++◌, IfErr, IfOk, OnOk};
ghost use Rattle.sqlite_record.specs.Record.{decode, IsBodyOf};
ghost use Rattle.sqlite_record.specs.Serial.{int_serial, serial_of, serial_size};
ghost use Rattle.sqlite_value.specs.declared.value.Value.{Value};
ghost use Rattle.sqlite_value.specs.declared.value.Value.TheVariants.{Int};
ghost use Rattle.sqlite_value.specs.Order.{Row};
ghost use Rattle.sqlite_value.specs.Value.{owned};
ghost use Rattle.line_fills.specs.Causes.{HasRecord, IsRefused, IsShort};
ghost use Rattle.line_fills.specs.Records.{IsWritable};
ghost use Rattle.line_fills.specs.Written.{HasValues, Takes};

use plain_tables::StoreError;
use sqlite_format::varint;
use sqlite_value::value::ValueRef;
use std::alloc::{AllocError, Global};

/// No record has more bytes than this.
const MAX_LEN: usize = 1_000_000_000;

/// Makes records, in buffers that are used again.
#[derive(Drop)]
pub(crate) struct Encoder {
    types: Vec<u8>,
    body: Vec<u8>,
    bytes: Vec<u8>,
}

/// The type of a whole number.
#[inline(always)]
fn type_of(n: i64) -> u8
    ensures kind { result ≡ int_serial n }
    ensures small { result < 10 }
{
    let steps = if n < 0 { (-1 - n) as u64 } else { n as u64 };
    if n == 0 || n == 1 {
        8 + steps as u8
    } else if steps < 1 << 7 {
        1
    } else if steps < 1 << 15 {
        2
    } else if steps < 1 << 23 {
        3
    } else if steps < 1 << 31 {
        4
    } else if steps < 1 << 47 {
        5
    } else {
        6
    }
}

/// How many bytes a whole number of this type takes.
#[inline(always)]
fn size_of(kind: u8) -> usize
    requires { kind < 10 }
    ensures size { result ≡ serial_size kind }
    ensures most { result ≤ 8 }
{
    match kind {
        0..=4 => kind as usize,
        5 => 6,
        6 | 7 => 8,
        _ => 0,
    }
}

impl Encoder {
    pub(crate) fn new(alloc: Global) -> Encoder
        ensures { HasValues result [] }
    {
        Encoder {
            types: Vec::new(alloc),
            body: Vec::new(alloc),
            bytes: Vec::new(alloc),
        }
    }

    /// Forgets the values.
    pub(crate) fn clear(&mut self)
        ensures { HasValues self.new [] }
    {
        self.types.clear();
        self.body.clear();
    }

    /// Adds a whole number.
    #[inline(always)]
    fn push_int(&mut self, n: i64) -> Result<(), AllocError>
        ensures { Takes self.old self.new (Int n) result }
    {
        let kind = type_of(n);
        self.types.push(kind)?;
        let bytes = n.cast_unsigned().to_be_bytes();
        self.body.extend_from_slice(&bytes[8 - size_of(kind)..])?;
        Ok(())
    }

    /// Adds a value of this type and these bytes.
    fn push_as(&mut self, kind: u64, body: &[u8]) -> Result<(), AllocError>
        requires { kind < 2 ^ 56 }
        ensures { (value : Value) → kind ≡ serial_of value → IsBodyOf body.now value → Takes self.old self.new value result }
    {
        let mut buf = [0u8; varint::MAX_LEN];
        let start = varint::put(&mut buf, kind);
        self.types.extend_from_slice(&buf[start..])?;
        self.body.extend_from_slice(body)?;
        Ok(())
    }

    /// Adds a value. `Store` where it is a NaN, or too long.
    #[inline(always)]
    pub(crate) fn push(&mut self, value: ValueRef<'_>) -> Result<(), StoreError>
        ensures taken { Takes self.old self.new (owned value.entry) result }
        ensures refused { IfErr result (IsRefused (IsShort (owned value.entry))) }
    {
        match value {
            ValueRef::Int(n) => self.push_int(n)?,
            ValueRef::Null => self.push_as(0, &[])?,
            ValueRef::Text(text) if text.len() <= MAX_LEN => {
                self.push_as(13 + 2 * text.len() as u64, text)?;
            }
            ValueRef::Blob(blob) if blob.len() <= MAX_LEN => {
                self.push_as(12 + 2 * blob.len() as u64, blob)?;
            }
            ValueRef::Real(x) if !x.is_nan() => {
                self.push_as(7, &f64::to_bits(x).to_be_bytes())?;
            }
            _ => return Err(StoreError::Store),
        }
        Ok(())
    }

    /// Writes the record, whose header has this length.
    fn finish(&mut self, header: u8) -> Result<(), AllocError>
        ensures { OnOk result (self.new.bytes.items ≡ header ∷ (self.old.types.items ++ self.old.body.items)) }
    {
        self.bytes.clear();
        self.bytes.push(header)?;
        self.bytes.extend_from_slice(self.types.as_slice())?;
        self.bytes.extend_from_slice(self.body.as_slice())
    }

    /// The record of the values. `Store` where there is none, there are more than a hundred, or the record is too long.
    pub(crate) fn record(&mut self) -> Result<&[u8], StoreError>
        ensures decoded { (row : Row) → HasValues self.old row → IfOk result (λ bytes. decode bytes.now ≡ row) }
        ensures writable { (row : Row) → HasValues self.old row → IfOk result (λ bytes. IsWritable bytes.now) }
        ensures refused { (row : Row) → HasValues self.old row → IfErr result (IsRefused (HasRecord row)) }
    {
        let header = self.types.len();
        if header == 0 || header > 126 || self.body.len() > MAX_LEN {
            return Err(StoreError::Store);
        }
        self.finish(header as u8 + 1)?;
        Ok(self.bytes.as_slice())
    }
}
