//! The bytes of a version vector.

ghost use Rattle.std.specs.Prelude.{◌≡◌, ◌≢◌, ◌++◌, T, length, IfOk, IsErrOf, OnOk};
ghost use Rattle.std.specs.FinMap as map;
ghost use Rattle.std.specs.List.{AllByRecursion, flat_map};
ghost use Rattle.std.specs.Ordering.{nat_cmp};
ghost use Rattle.tk_format.specs.Reading.{Gets, GetsAll, GetsManyBy, Reads};
ghost use Rattle.tk_vector.specs.VectorBytes.{entry_field, listed, vector, vector_bytes};
ghost use Rattle.tk_vector.specs.VersionVector.{Vector};

use crate::VersionVector;
use std::alloc::{AllocError, Global};
use tk_format::{ReadError, Reader, Spelled, Writer, read_all};
use tk_handle::{RegionNumber, Serial};

// The bytes that begin a vector.
const MAGIC: &[u8] = b"OTV1";

impl VersionVector {
    /// Returns the vector's bytes, or fails if memory runs out.
    ///
    /// The bytes are `OTV1`, the number of entries in two bytes, and the entries in ascending order
    /// of region. An entry is the region's number in two bytes and the serial in eight, high byte
    /// first.
    pub fn write(&self, alloc: Global) -> Result<Vec<u8>, AllocError>
        ensures spelled { IfOk result (λ bytes. bytes.items ≡ vector_bytes self.now) }

        // This clause shows that the bytes can be read.
        ensures fits { OnOk result (vector.Fits self.now) }
    {
        let entries = self.entries();
        let mut writer = Writer::new(alloc);
        writer.put_bytes(MAGIC)?;
        writer.put_u16(count_of(entries))?;
        write_entries(entries, &mut writer)?;
        Ok(writer.into_bytes())
    }

    /// Returns the vector that all of the bytes together spell. Returns `Malformed` if they spell
    /// no vector, and `Memory` if memory runs out.
    pub fn read(alloc: Global, bytes: &[u8]) -> Result<VersionVector, ReadError>
        ensures found { IfOk result (λ v. vector.Fits v × (bytes.now ≡ vector_bytes v)) }
        ensures malformed { IsErrOf result ReadError.Malformed → (v : Vector) → vector.Fits v
            → bytes.now ≢ vector_bytes v }

        // This clause states the result by what the format reads.
        ensures exact { GetsAll (λ v. v) vector result bytes.now }
    {
        read_all(alloc, bytes)
    }
}

// Returns the number of entries: at most the number of regions, 65,535, since no two entries have
// one region.
fn count_of(entries: &[(RegionNumber, Serial)]) -> u16
    requires { T (map.is_sorted nat_cmp entries.now) }
    ensures { result ≡ length entries.now }
{
    let (Some(first), Some(last)) = (entries.first(), entries.last()) else {
        return 0;
    };
    // The range of a region bounds the length.
    let _lowest = first.0.number();
    let _highest = last.0.number();
    entries.len() as u16
}

fn write_entries(entries: &[(RegionNumber, Serial)], writer: &mut Writer) -> Result<(), AllocError>
    ensures written { OnOk result
        (writer.new ≡ writer.old ++ flat_map entry_field.spell entries.now) }
    ensures fits { OnOk result (AllByRecursion entry_field.Fits entries.now) }
{
    for entry in entries {
        write_entry(entry.0, entry.1, writer)?;
    }
    Ok(())
}

// Writes the region's number in two bytes, and the serial in eight.
fn write_entry(region: RegionNumber, serial: Serial, writer: &mut Writer) -> Result<(), AllocError>
    ensures written { OnOk result (writer.new ≡ writer.old ++ entry_field.spell (region, serial)) }
    ensures fits { entry_field.Fits (region, serial) }
{
    writer.put_u16(region.number())?;
    writer.put_u64(serial.number())
}

fn read_entry(reader: &mut Reader<'_>) -> Option<(RegionNumber, Serial)>
    ensures { Reads (λ e. e) entry_field result reader.old reader.new }
{
    let region = RegionNumber::new(reader.take_u16()?)?;
    let serial = Serial::new(reader.take_u64()?)?;
    Some((region, serial))
}

// Reads `count` entries one by one. Memory is taken only for entries that are read, and not for
// those that a count merely claims.
fn read_entries(
    alloc: Global,
    count: u16,
    reader: &mut Reader<'_>,
) -> Result<Vec<(RegionNumber, Serial)>, ReadError>
    ensures { GetsManyBy entry_field.read count result reader.old reader.new }
{
    let mut entries = Vec::new(alloc);
    for _ in 0..count {
        let entry = read_entry(reader).ok_or(ReadError::Malformed)?;
        entries.push(entry)?;
    }
    Ok(entries)
}

// Reads the magic, the count, and as many entries.
fn read_listed(
    alloc: Global,
    reader: &mut Reader<'_>,
) -> Result<Vec<(RegionNumber, Serial)>, ReadError>
    ensures { Gets (λ v. v.items) listed result reader.old reader.new }
{
    reader.take_magic(MAGIC).ok_or(ReadError::Malformed)?;
    let count = reader.take_u16().ok_or(ReadError::Malformed)?;
    read_entries(alloc, count, reader)
}

// Returns whether the regions strictly rise.
fn is_rising(entries: &[(RegionNumber, Serial)]) -> bool
    ensures { result ≡ map.is_sorted nat_cmp entries.now }
{
    entries.is_sorted_by(|one, next| one.0 < next.0)
}

impl Spelled for VersionVector {
    ghost use Rattle.tk_vector.specs.VectorBytes.{vector};
    ghost use Rattle.tk_vector.specs.VectorBytesLaws.{vector_exact};

    ghost format = { vector };

    fn read_from(alloc: Global, reader: &mut Reader<'_>) -> Result<VersionVector, ReadError> {
        let entries = read_listed(alloc, reader)?;
        if is_rising(&entries) {
            Ok(VersionVector::of_sorted(entries))
        } else {
            Err(ReadError::Malformed)
        }
    }

    ghost exact = { vector_exact };
}
