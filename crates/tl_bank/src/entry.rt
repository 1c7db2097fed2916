//! The entries of the clients' tables, as copies of the protocol.
ghost use Rattle.std.specs.Prelude.{◌≡◌, ◌≤◌, ◌<◌, ◌+◌, ℕ, length, slice_range, if◌then◌else◌};
ghost use Rattle.std.specs.Option.{option_copied};
ghost use Rattle.tl_bank_laws.specs.Entry.{HasPlace, ended, entry_with, held_as, copy_in, wait_in, perm_in, bytes_in};
ghost use Rattle.tl_bank_spec.specs.Tables.{has_entry_for, is_waiting};
ghost use Rattle.tl_types.specs.Permission.{grant_perm};
ghost use Rattle.tl_protocol.specs.Client.{bytes_or};
ghost use Rattle.tl_protocol.specs.Copy.{bytes_of, clean_copy, dirty_bytes, reduced};
ghost use Rattle.tl_copies.specs.Copies.{clients_of, held_at, is_cell, SameSize};
ghost use Rattle.tl_copies.specs.Held.{has_copy};

use arrayvec::ArrayVec;
use tl_copies::{Copies, Held};
use tl_protocol::CachedCopy;
use tl_types::{ACCESS_BYTES, AccessBytes, Awaited, BlockBytes, BlockNo, ClientId, GrantCap, Perm};

/// The copy that an entry keeps.
pub(crate) fn copy_in(held: Option<&Held>) -> CachedCopy
    ensures { result ≡ copy_in (option_copied held.entry) }
{
    let Some(held) = held else {
        return CachedCopy::Absent;
    };
    match held.perm {
        Perm::None => CachedCopy::Absent,
        Perm::Branch => CachedCopy::Readable(held.bytes.copied()),
        Perm::Tip => CachedCopy::Writable(held.bytes.copied(), held.dirty),
    }
}

/// The bytes of that copy where it is dirty, which are sent where it is reduced.
pub(crate) fn dirty_in(held: Option<&Held>) -> Option<BlockBytes>
    ensures { result ≡ dirty_bytes (copy_in (option_copied held.entry)) }
{
    let Some(held) = held else {
        return None;
    };
    match held.perm {
        Perm::None | Perm::Branch => None,
        Perm::Tip => {
            if held.dirty {
                Some(held.bytes.copied())
            } else {
                None
            }
        }
    }
}

/// That copy, reduced to at most a permission.
pub(crate) fn reduced_in(held: Option<&Held>, perm: Perm) -> CachedCopy
    ensures { result ≡ reduced (copy_in (option_copied held.entry)) perm }
{
    match perm {
        Perm::None => CachedCopy::Absent,
        Perm::Branch | Perm::Tip => {
            let mut copy = copy_in(held);
            copy.reduce(perm);
            copy
        }
    }
}

/// The answer that the client waits for.
pub(crate) fn wait_in(held: Option<&Held>) -> Awaited
    ensures { result ≡ wait_in (option_copied held.entry) }
{
    match held {
        Some(held) => held.wait,
        None => Awaited::Nothing,
    }
}

/// What the client may do with the block.
pub(crate) fn perm_in(held: Option<&Held>) -> Perm
    ensures { result ≡ perm_in (option_copied held.entry) }
{
    match held {
        Some(held) => held.perm,
        None => Perm::None,
    }
}

/// Whether the client waits for an answer.
pub(crate) fn waits_in(held: Option<&Held>) -> bool
    ensures { result ≡ is_waiting (wait_in (option_copied held.entry)) }
{
    wait_in(held) != Awaited::Nothing
}

/// `len` of the entry's bytes, from `offset` on.
pub(crate) fn read_in(held: Option<&Held>, offset: u32, len: u32) -> AccessBytes
    requires inside { offset + len ≤ length (bytes_in (option_copied held)) }
    requires few { len ≤ ACCESS_BYTES }
    ensures { result ≡ slice_range (bytes_in (option_copied held.entry)) offset (offset + len) }
{
    match held {
        Some(held) => held.bytes.access_at(offset, len).unwrap(),
        None => AccessBytes::new(),
    }
}

/// A copy as a table keeps it.
fn held_as(copy: CachedCopy, wait: Awaited) -> Held
    ensures { result ≡ held_as copy wait }
{
    let perm = copy.perm();
    let dirty = match &copy {
        CachedCopy::Writable(_, dirty) => *dirty,
        _ => false,
    };
    Held {
        perm,
        dirty,
        bytes: copy.into_bytes(),
        wait,
    }
}

/// The clean copy that a Grant makes of a client's own, which its entry keeps.
pub(crate) fn granted_in(
    held: Option<&Held>,
    cap: GrantCap,
    bytes: Option<&BlockBytes>,
) -> CachedCopy
    ensures { result
        ≡ clean_copy (grant_perm cap)
        (bytes_or (option_copied bytes.entry) (bytes_of (copy_in (option_copied held.entry)))) }
{
    match bytes {
        Some(bytes) => CachedCopy::clean(cap.perm(), bytes.copied()),
        None => CachedCopy::clean(cap.perm(), copy_in(held).into_bytes()),
    }
}

/// The bytes of an access, which are at most eight.
pub(crate) fn access_of(bytes: &[u8]) -> AccessBytes
    requires { length bytes.now ≤ ACCESS_BYTES }
    ensures { result ≡ bytes.now }
{
    AccessBytes::from_slice(bytes).unwrap()
}

/// The bytes of an access as a load answers them.
pub(crate) fn loaded(bytes: &AccessBytes) -> ArrayVec<u8, 8>
    ensures { result.items ≡ bytes.now }
{
    ArrayVec::try_from(bytes.as_slice()).unwrap()
}

/// Whether a table has an entry for such a copy.
fn has_entry_for(copy: &CachedCopy, wait: Awaited) -> bool
    ensures { result ≡ has_entry_for copy.now wait }
{
    match copy {
        CachedCopy::Absent => wait != Awaited::Nothing,
        _ => true,
    }
}

/// Puts a client's copy of a block, with the answer that it waits for, into its table, where there is room for its
/// entry.
pub(crate) fn put(
    copies: &mut Copies,
    client: ClientId,
    block: BlockNo,
    copy: CachedCopy,
    wait: Awaited,
)
    requires { HasPlace copies.old client block copy wait }
    ensures same { SameSize copies.old copies.new }
    ensures after { (x y : ℕ)
        → held_at copies.new x y ≡ (if is_cell client block x y then entry_with copy wait else held_at copies.old x y) }
{
    if has_entry_for(&copy, wait) {
        let Ok(()) = copies.keep(client, block, held_as(copy, wait)) else {
            unreachable!()
        };
    } else {
        copies.clear(client, block);
    }
}

/// Whether a table's entry is a copy.
fn has_copy(held: Option<&Held>) -> bool
    ensures { result ≡ has_copy (option_copied held.entry) }
{
    match held {
        Some(held) => held.is_copy(),
        None => false,
    }
}

/// A client waits for nothing any more about a block: the copy that it has stays, and an entry that says none goes.
pub(crate) fn end_wait(copies: &mut Copies, client: ClientId, block: BlockNo)
    requires client { client < clients_of copies.old }
    requires block { block < copies.old.blocks }
    ensures same { SameSize copies.old copies.new }
    ensures after { (x y : ℕ)
        → held_at copies.new x y
        ≡ (if is_cell client block x y then ended (held_at copies.old client block) else held_at copies.old x y) }
{
    if has_copy(copies.held(client, block)) {
        copies.wait_for(client, block, Awaited::Nothing);
    } else {
        copies.clear(client, block);
    }
}
