//! What the memory, home and the clients hold of a block, in lines.
ghost use Rattle.std.specs.Prelude.{◌≡◌, ◌++◌, ◌<◌, OnOk, length, string_bytes};
ghost use Rattle.tl_rules.specs.Plain.{block_state, plain_client};
ghost use Rattle.tlcheck_record.specs.State.{all_clients, block_lines, client_lines, client_text, end_lines, is_at_rest, is_in_the_way, is_probed, is_quiet, is_reset, is_still, left_lines, must_be_probed, state_lines};

use crate::client::{ClientLine, is_at_rest, is_probed, is_still};
use crate::home::{HeadLine, HomeLine};
use std::alloc::AllocError;
use std::fmt::Write;
use tl_rules::{BlockState, Plain, Shape};
use tl_script_words::Hex;
use tl_types::{ClientId, GrantCap, Perm};

fn is_in_the_way(cap: GrantCap, recorded: Perm) -> bool
    ensures { result ≡ is_in_the_way cap recorded }
{
    match (cap, recorded) {
        (GrantCap::ToT, Perm::None) => false,
        (GrantCap::ToT, Perm::Branch | Perm::Tip) => true,
        (GrantCap::ToB, Perm::None | Perm::Branch) => false,
        (GrantCap::ToB, Perm::Tip) => true,
    }
}

/// Whether the client's record is in the way of the Grant that home is to send to another, and the client is not
/// probed.
fn must_be_probed(block: &BlockState, shape: Shape, c: ClientId) -> bool
    requires size { length block.now.clients ≡ shape.clients }
    requires client { c < shape.clients }
    ensures { result ≡ must_be_probed shape (block_state block.now) c block.now.accepted }
{
    let client = block.the_client(c);
    match block.accepted() {
        Some(acquire) => {
            acquire.client != c
                && is_in_the_way(block.granted(acquire), client.recorded)
                && !is_probed(client)
        }
        None => false,
    }
}

/// Whether no client waits for anything, and no message is on its way.
fn are_still(block: &BlockState, shape: Shape) -> bool
    requires { length block.now.clients ≡ shape.clients }
    ensures { result ≡ all_clients is_still shape.clients (plain_client block.now) }
{
    let mut still = true;
    for c in 0..shape.clients {
        still = is_still(block.the_client(ClientId::new(c))) && still;
    }
    still
}

/// Whether no client holds, waits for or is sent anything.
fn are_at_rest(block: &BlockState, shape: Shape) -> bool
    requires { length block.now.clients ≡ shape.clients }
    ensures { result ≡ all_clients is_at_rest shape.clients (plain_client block.now) }
{
    let mut rest = true;
    for c in 0..shape.clients {
        rest = is_at_rest(block.the_client(ClientId::new(c))) && rest;
    }
    rest
}

fn is_quiet(block: &BlockState, shape: Shape) -> bool
    requires { length block.now.clients ≡ shape.clients }
    ensures { result ≡ is_quiet shape (block_state block.now) }
{
    block.accepted().is_none() && block.outward().is_quiet() && are_still(block, shape)
}

fn is_reset(block: &BlockState, shape: Shape) -> bool
    requires { length block.now.clients ≡ shape.clients }
    ensures { result ≡ is_reset shape (block_state block.now) }
{
    !block.is_at_home()
        && block.accepted().is_none()
        && block.outward().is_quiet()
        && are_at_rest(block, shape)
}

/// The line of a client, unless it is at rest.
fn push_client(
    text: &mut String,
    block: &BlockState,
    shape: Shape,
    number: u32,
) -> Result<(), AllocError>
    requires size { length block.now.clients ≡ shape.clients }
    requires client { number < shape.clients }
    ensures { OnOk result
        (string_bytes text.new ≡ string_bytes text.old ++ client_text shape (block_state block.now) number) }
{
    let c = ClientId::new(number);
    let client = block.the_client(c);
    if is_at_rest(client) {
        return Ok(());
    }
    let probe = must_be_probed(block, shape, c);
    write!(text, "{}", ClientLine { c, client, probe })?;
    Ok(())
}

fn push_clients(text: &mut String, block: &BlockState, shape: Shape) -> Result<(), AllocError>
    requires { length block.now.clients ≡ shape.clients }
    ensures { OnOk result
        (string_bytes text.new ≡ string_bytes text.old ++ client_lines shape (block_state block.now) shape.clients) }
{
    for c in 0..shape.clients {
        push_client(text, block, shape, c)?;
    }
    Ok(())
}

fn push_block(
    text: &mut String,
    block: &BlockState,
    shape: Shape,
    number: u32,
) -> Result<(), AllocError>
    requires { length block.now.clients ≡ shape.clients }
    ensures { OnOk result
        (string_bytes text.new ≡ string_bytes text.old ++ block_lines shape number (block_state block.now)) }
{
    let head = HeadLine {
        block: number,
        held: block.held(),
        recorded: block.recorded(),
        quiet: is_quiet(block, shape),
    };
    let home = HomeLine {
        home: block.home(),
        accepted: block.accepted(),
        outward: block.outward(),
    };
    write!(
        text,
        "{head}{home}memory: {}\n",
        Hex(block.memory().as_slice())
    )?;
    push_clients(text, block, shape)
}

/// The state of a block in lines, at the end of a text; nothing where the memory has no such block. The error is want
/// of memory; the text is then of no use.
pub fn push_state(text: &mut String, plain: &Plain, block: u32) -> Result<(), AllocError>
    ensures { OnOk result (string_bytes text.new ≡ string_bytes text.old ++ state_lines plain.now block) }
{
    match plain.block(block) {
        Some(state) => push_block(text, state, plain.shape(), block),
        None => Ok(()),
    }
}

/// The state of a block in lines, unless it is as at reset but for the memory's bytes.
fn push_left(text: &mut String, plain: &Plain, block: u32) -> Result<(), AllocError>
    requires { block < plain.now.shape.blocks }
    ensures { OnOk result (string_bytes text.new ≡ string_bytes text.old ++ left_lines plain.now block) }
{
    match plain.block(block) {
        Some(state) => {
            if is_reset(state, plain.shape()) {
                Ok(())
            } else {
                push_block(text, state, plain.shape(), block)
            }
        }
        None => Ok(()),
    }
}

/// The state of each block that is not as at reset but for the memory's bytes, in lines, at the end of a text. The
/// error is want of memory; the text is then of no use.
pub fn push_end(text: &mut String, plain: &Plain) -> Result<(), AllocError>
    ensures { OnOk result (string_bytes text.new ≡ string_bytes text.old ++ end_lines plain.now) }
{
    for block in 0..plain.shape().blocks {
        push_left(text, plain, block)?;
    }
    Ok(())
}
