//! Records of messages that a monitor on the links wrote.

use crate::asked::{Asked, Part};
use crate::numbers::{Digest, Numbers};
use crate::session::{Session, Sizes};
use crate::sight::{SOURCES, Sights};
use std::alloc::{AllocError, Global};
use tlwire_answer::{Form, answer};

/// A record: how many clients and blocks it is of, how late its lines are, its premises, its length, and whether
/// another one of it is answered, with a wrong digit.
#[derive(Clone, Copy)]
struct Plan {
    clients: u32,
    blocks: u32,
    late: u32,
    premises: &'static str,
    /// How many steps it takes of what is asked for.
    steps: u32,
    damaged: bool,
}

/// Records for which a run is looked for.
const STRAIGHT: &[Plan] = &[
    Plan {
        clients: 2,
        blocks: 16,
        late: 0,
        premises: "whole\n",
        steps: 4,
        damaged: false,
    },
    Plan {
        clients: 16,
        blocks: 64,
        late: 0,
        premises: "whole\n",
        steps: 8,
        damaged: false,
    },
    Plan {
        clients: 4,
        blocks: 64,
        late: 3,
        premises: "whole\n",
        steps: 4,
        damaged: false,
    },
    Plan {
        clients: 8,
        blocks: 32,
        late: 0,
        premises: "seen at clients\n",
        steps: 4,
        damaged: true,
    },
    Plan {
        clients: 4,
        blocks: 64,
        late: 40,
        premises: "",
        steps: 2,
        damaged: true,
    },
];

/// Records that are ruled out, or not, by a closed set of states: cut ones and whole ones.
const CLOSED: &[Plan] = &[
    Plan {
        clients: 2,
        blocks: 4,
        late: 0,
        premises: "seen between\n",
        steps: 4,
        damaged: true,
    },
    Plan {
        clients: 3,
        blocks: 3,
        late: 0,
        premises: "seen between\n",
        steps: 1,
        damaged: true,
    },
    Plan {
        clients: 4,
        blocks: 4,
        late: 0,
        premises: "seen at home\n",
        steps: 1,
        damaged: true,
    },
    Plan {
        clients: 8,
        blocks: 8,
        late: 0,
        premises: "seen between\nwhole\n",
        steps: 2,
        damaged: true,
    },
];

fn sizes_of(plan: Plan) -> Sizes {
    Sizes {
        clients: plan.clients,
        blocks: plan.blocks,
        hot: plan.blocks / 2,
        block_bytes: 8,
        sets: 4,
        ways: 4,
        registers: 4,
        copies: 8,
    }
}

/// What is asked of the records of a job.
#[derive(Clone, Copy)]
struct Wanted {
    form: Form,
    part: Part,
}

/// The lines before the messages.
fn header_of(alloc: Global, plan: Plan) -> Result<String, AllocError> {
    let (clients, blocks) = (plan.clients, plan.blocks);
    let mut text = format!(in alloc;
        "jvwire 1\nshape clients={clients} block=8 blocks={blocks} base=0x0\n"
    )?;
    for client in 0..clients {
        let first = client.wrapping_mul(SOURCES);
        let last = first.wrapping_add(SOURCES - 1);
        let line = format!(in alloc; "source client={client} from={first} to={last}\n")?;
        text.push_str(line.as_str())?;
    }
    text.push_str(plan.premises)?;
    Ok(text)
}

fn sights_of(
    alloc: Global,
    plan: Plan,
    seed: u32,
    steps: u32,
) -> Result<Option<Sights>, AllocError> {
    let sights = Sights::new(alloc, seed, 8, plan.late)?;
    let Some(mut session) = Session::new(alloc, sizes_of(plan), Some(sights)) else {
        return Ok(None);
    };
    let mut numbers = Numbers::new(seed);
    for _ in 0..steps {
        session.step(&mut numbers)?;
    }
    Ok(session.into_sights())
}

/// The record of a plan.
fn record_of(alloc: Global, plan: Plan, seed: u32, steps: u32) -> Result<String, AllocError> {
    let mut text = header_of(alloc, plan)?;
    if let Some(sights) = sights_of(alloc, plan, seed, steps)? {
        sights.push_lines(&mut text)?;
    }
    Ok(text)
}

/// The place, from the end, of the last byte of a load's line, where there is one.
fn last_load(text: &[u8]) -> Option<usize> {
    let mut in_load = false;
    let mut place = None;
    for at in 0..text.len() {
        if text[at] == b'l' {
            in_load = true;
        }
        if text[at] == b'\n' {
            if in_load {
                place = Some(at);
            }
            in_load = false;
        }
    }
    place
}

/// A record with another last digit in its last load.
fn damaged(alloc: Global, text: &str) -> Result<Vec<u8>, AllocError> {
    let mut bytes = Vec::new(alloc);
    bytes.extend_from_slice(text.as_bytes())?;
    if let Some(end) = last_load(text.as_bytes()) {
        if end > 0 && end <= bytes.len() {
            let digit = bytes[end - 1];
            bytes[end - 1] = if digit == b'0' { b'1' } else { b'0' };
        }
    }
    Ok(bytes)
}

fn answer_to(alloc: Global, wanted: Wanted, text: &[u8], digest: Digest) -> Digest {
    if wanted.part == Part::Inputs {
        return digest.with(text.len() as u64);
    }
    let mut output = Vec::new(alloc);
    let mut faults = Vec::new(alloc);
    let status = answer(alloc, wanted.form, text, &mut output, &mut faults);
    digest
        .with_status(status)
        .with_bytes(&output)
        .with_bytes(&faults)
}

/// Answers the record of a plan, and the damaged one.
fn answer_both(
    alloc: Global,
    wanted: Wanted,
    plan: Plan,
    seed: u32,
    steps: u32,
    digest: Digest,
) -> Result<Digest, AllocError> {
    let text = record_of(alloc, plan, seed, plan.steps.wrapping_mul(steps))?;
    let first = answer_to(alloc, wanted, text.as_bytes(), digest);
    if !plan.damaged {
        return Ok(first);
    }
    let other = damaged(alloc, text.as_str())?;
    Ok(answer_to(alloc, wanted, &other, first))
}

/// Answers the records of some plans.
fn answer_all(
    alloc: Global,
    wanted: Wanted,
    plans: &[Plan],
    seed: u32,
    steps: u32,
) -> Result<Digest, AllocError> {
    let mut digest = Digest::new();
    for plan in plans {
        digest = answer_both(alloc, wanted, *plan, seed, steps, digest)?;
    }
    Ok(digest)
}

/// Looks for runs, which are told in a form.
pub(crate) fn search_all(alloc: Global, form: Form, asked: Asked) -> Result<Digest, AllocError> {
    let wanted = Wanted {
        form,
        part: asked.part,
    };
    answer_all(alloc, wanted, STRAIGHT, asked.seed, asked.size)
}

/// Rules records out, so many of each plan, or tells a run in a form.
pub(crate) fn rule_out_all(alloc: Global, form: Form, asked: Asked) -> Result<Digest, AllocError> {
    let wanted = Wanted {
        form,
        part: asked.part,
    };
    let mut digest = Digest::new();
    for number in 0..asked.count {
        let own = asked.seed.wrapping_mul(asked.count).wrapping_add(number);
        digest = digest.and(answer_all(alloc, wanted, CLOSED, own, asked.size)?);
    }
    Ok(digest)
}
