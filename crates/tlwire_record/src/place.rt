//! Where a message or an access is, and whether its size and its bytes are a block's.
ghost use Rattle.std.specs.Prelude.{◌≡◌, ◌<◌, ◌≤◌};
ghost use Rattle.tl_types.specs.declared.kind.Kind.{Kind};
ghost use Rattle.tlwire_record.specs.Place.{block_at, has_its_data, has_more_than_a_sink, has_other_fields, is_set, is_size, offset_of};

use crate::fields::Fields;
use tl_rules::Shape;
use tl_types::{AccessBytes, BLOCK_BYTES, BLOCKS, BlockBytes, BlockNo, Channel, Kind};
use tlcheck_record::Cause;

/// The block whose first byte lies at an address.
pub(crate) fn block_at(shape: Shape, base: u64, address: u64) -> Result<BlockNo, Cause>
    requires { 0 < shape.block_bytes }
    ensures { result ≡ block_at shape base address }
{
    if address < base {
        return Err(Cause::Outside);
    }
    let offset = address - base;
    let size = shape.block_bytes as u64;
    let block = offset / size;
    if block >= shape.blocks as u64 {
        return Err(Cause::Outside);
    }
    if offset % size != 0 {
        return Err(Cause::Unaligned);
    }
    Ok(BlockNo::new(block as u32))
}

/// How far behind the memory's first byte an access begins.
pub(crate) fn offset_of(
    shape: Shape,
    base: u64,
    address: u64,
    bytes: &AccessBytes,
) -> Result<u32, Cause>
    requires bytes { (0 < shape.block_bytes) × (shape.block_bytes ≤ BLOCK_BYTES) }
    requires blocks { shape.blocks ≤ BLOCKS }
    ensures { result ≡ offset_of shape base address bytes.now }
{
    if address < base {
        return Err(Cause::Outside);
    }
    let offset = address - base;
    let size = shape.block_bytes as u64;
    if offset / size >= shape.blocks as u64 {
        return Err(Cause::Outside);
    }
    let from = (offset % size) as usize;
    if from + bytes.as_slice().len() > shape.block_bytes as usize {
        return Err(Cause::Access);
    }
    let near = offset as u32;
    Ok(near)
}

/// Whether a size, where it stands, is a block's.
pub(crate) fn is_size(shape: Shape, size: Option<u32>) -> bool
    ensures { result ≡ is_size shape size }
{
    match size {
        None => true,
        Some(3) => shape.block_bytes == 8,
        Some(4) => shape.block_bytes == 16,
        Some(5) => shape.block_bytes == 32,
        Some(6) => shape.block_bytes == 64,
        Some(_) => false,
    }
}

/// Whether a message has a block's bytes where its kind has bytes, and else none.
pub(crate) fn has_its_data(shape: Shape, kind: &Kind, bytes: &Option<BlockBytes>) -> bool
    ensures { result ≡ has_its_data shape kind.now bytes.now }
{
    match bytes {
        None => !kind.has_data(),
        Some(bytes) => { kind.has_data() && bytes.as_slice().len() == shape.block_bytes as usize }
    }
}

/// Whether a field stands that is not 0.
pub(crate) fn is_set(field: Option<u32>) -> bool
    ensures { result ≡ is_set field }
{
    match field {
        Some(number) => number != 0,
        None => false,
    }
}

/// Whether a field of another channel than E stands.
fn has_more_than_a_sink(fields: &Fields) -> bool
    ensures { result ≡ has_more_than_a_sink fields.now }
{
    fields.address.is_some()
        || fields.param.is_some()
        || fields.size.is_some()
        || fields.source.is_some()
        || fields.denied.is_some()
        || fields.corrupt.is_some()
        || fields.mask.is_some()
}

/// Whether a field stands that the channel has not.
pub(crate) fn has_other_fields(channel: Channel, fields: &Fields) -> bool
    ensures { result ≡ has_other_fields channel fields.now }
{
    match channel {
        Channel::A | Channel::B => fields.sink.is_some() || fields.denied.is_some(),
        Channel::C => fields.sink.is_some() || fields.denied.is_some() || fields.mask.is_some(),
        Channel::D => fields.address.is_some() || fields.mask.is_some(),
        Channel::E => has_more_than_a_sink(fields),
    }
}
