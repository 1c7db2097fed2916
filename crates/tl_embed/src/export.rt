//! What C calls.
ghost use Rattle.std.specs.Prelude.{◌≡◌};
ghost use Rattle.std.specs.Align.{type_align};
ghost use Rattle.std.specs.Borrow.{full_share, sem};
ghost use Rattle.std.specs.Mem.{type_size};
ghost use Rattle.std.specs.Ptr.{lies_at, room_at};
ghost use Rattle.tl_embed.specs.Calls.{Accesses, Calls, Looks};
ghost use Rattle.tl_embed.specs.Images.{Images};
ghost use Rattle.tl_embed.specs.Many.{CallsMany, Reads};
ghost use Rattle.tl_embed.specs.Opens.{Opens};
ghost use Rattle.tl_embed.specs.Saw.{Saws};
ghost use Rattle.tl_embed.specs.Told.{echoed, seen_echoed};
ghost use Rattle.tl_embed.specs.contracts.cache.Cache.{the_row};
ghost use Rattle.tl_embed.specs.declared.cache.Cache.{Cache};

use crate::access::access;
use crate::answer::{Accessed, Answer, Number};
use crate::cache::{Cache, Numbers, call, opened};
use crate::image::image;
use crate::many::{calls, read};
use crate::request::Request;
use crate::saw::saw;
use crate::seen::Seen;
use crate::views::look;
use std::alloc::Global;

/// Which interface this is: it rises with each change of a struct, a number or a meaning.
const VERSION: u32 = 7;

/// Which interface this is.
#[unsafe(no_mangle)]
pub extern "C" fn jv_version() -> u32
    ensures { result ≡ 7 }
{
    VERSION
}

/// How many bytes of room `jv_open` asks for.
#[unsafe(no_mangle)]
pub extern "C" fn jv_size() -> usize
    ensures { result ≡ type_size the_row }
{
    std::mem::size_of::<Cache>()
}

/// What the address of the room divides by.
#[unsafe(no_mangle)]
pub extern "C" fn jv_align() -> usize
    ensures { result ≡ type_align the_row }
{
    std::mem::align_of::<Cache>()
}

/// The request again, each of its fields in one of an answer.
#[unsafe(no_mangle)]
pub extern "C" fn jv_echo(request: &Request) -> Answer
    ensures { result ≡ echoed request.now }
{
    request.echo()
}

/// A message that was seen again, each of its fields in one of an answer.
#[unsafe(no_mangle)]
pub extern "C" fn jv_echo_seen(seen: &Seen) -> Answer
    ensures { result ≡ seen_echoed seen.now }
{
    seen.echo()
}

/// Puts a cache into room for one: at reset over an image, or closed for the reason that each call then answers.
#[unsafe(no_mangle)]
pub unsafe extern "C" fn jv_open(alloc: Global, numbers: &Numbers, image: &[u8], room: *mut u8)
    requires* { sem 𝓛 (room_at the_row room) }
    ensures* { ∃ₛ (λ (made : Cache). sem 𝓛 (lies_at the_row full_share room made)
        ∗ ⌜ Opens numbers.now image.now made ⌝) }
{
    let made = opened(alloc, numbers, image);
    unsafe { std::ptr::write(room as *mut Cache, made) }
}

/// Carries out a call of the cache at a pointer where `jv_open` put one.
#[unsafe(no_mangle)]
pub unsafe extern "C" fn jv_call(cache: *mut u8, request: &Request) -> Answer
    ghost before: { Cache }
    requires* { sem 𝓛 (lies_at the_row full_share cache before) }
    ensures* { ∃ₛ (λ (after : Cache). sem 𝓛 (lies_at the_row full_share cache after)
        ∗ ⌜ Calls before request.now after result ⌝) }
{
    call(unsafe { &mut *(cache as *mut Cache) }, request)
}

/// Carries out calls one after another, of the cache at a pointer where `jv_open` put one, until one is refused.
#[unsafe(no_mangle)]
pub unsafe extern "C" fn jv_calls(
    cache: *mut u8,
    requests: &[Request],
    answers: &mut [Answer],
) -> usize
    ghost before: { Cache }
    requires* { sem 𝓛 (lies_at the_row full_share cache before) }
    ensures* { ∃ₛ (λ (after : Cache). sem 𝓛 (lies_at the_row full_share cache after)
        ∗ ⌜ CallsMany before requests.now answers.old after answers.new result ⌝) }
{
    calls(unsafe { &mut *(cache as *mut Cache) }, requests, answers)
}

/// Tells events of the cache at a pointer where `jv_open` put one.
#[unsafe(no_mangle)]
pub unsafe extern "C" fn jv_read(cache: *mut u8, request: &Request, events: &mut [Answer]) -> Number
    ghost before: { Cache }
    requires* { sem 𝓛 (lies_at the_row full_share cache before) }
    ensures* { ∃ₛ (λ (after : Cache). sem 𝓛 (lies_at the_row full_share cache after)
        ∗ ⌜ Reads before request.now events.old after events.new result ⌝) }
{
    read(unsafe { &mut *(cache as *mut Cache) }, request, events)
}

/// Tells bytes of the memory of the cache at a pointer where `jv_open` put one.
#[unsafe(no_mangle)]
pub unsafe extern "C" fn jv_memory(cache: *mut u8, request: &Request, bytes: &mut [u8]) -> Number
    ghost before: { Cache }
    requires* { sem 𝓛 (lies_at the_row full_share cache before) }
    ensures* { ∃ₛ (λ (after : Cache). sem 𝓛 (lies_at the_row full_share cache after)
        ∗ ⌜ Images before request.now bytes.old after bytes.new result ⌝) }
{
    image(unsafe { &mut *(cache as *mut Cache) }, request, bytes)
}

/// Carries out a load or a store of the cache at a pointer where `jv_open` put one.
#[unsafe(no_mangle)]
pub unsafe extern "C" fn jv_access(cache: *mut u8, request: &Request) -> Accessed
    ghost before: { Cache }
    requires* { sem 𝓛 (lies_at the_row full_share cache before) }
    ensures* { ∃ₛ (λ (after : Cache). sem 𝓛 (lies_at the_row full_share cache after)
        ∗ ⌜ Accesses before request.now after result ⌝) }
{
    access(unsafe { &mut *(cache as *mut Cache) }, request)
}

/// Carries out what a message that was seen asks of the cache at a pointer where `jv_open` put one.
#[unsafe(no_mangle)]
pub unsafe extern "C" fn jv_saw(cache: *mut u8, seen: &Seen) -> Answer
    ghost before: { Cache }
    requires* { sem 𝓛 (lies_at the_row full_share cache before) }
    ensures* { ∃ₛ (λ (after : Cache). sem 𝓛 (lies_at the_row full_share cache after)
        ∗ ⌜ Saws before seen.now after result ⌝) }
{
    saw(unsafe { &mut *(cache as *mut Cache) }, seen)
}

/// Shows a number of the cache at a pointer where `jv_open` put one.
#[unsafe(no_mangle)]
pub unsafe extern "C" fn jv_look(cache: *mut u8, request: &Request) -> Number
    ghost before: { Cache }
    requires* { sem 𝓛 (lies_at the_row full_share cache before) }
    ensures* { ∃ₛ (λ (after : Cache). sem 𝓛 (lies_at the_row full_share cache after)
        ∗ ⌜ Looks before request.now after result ⌝) }
{
    look(unsafe { &mut *(cache as *mut Cache) }, request)
}
