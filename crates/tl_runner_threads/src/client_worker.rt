//! A client's thread.
ghost use Rattle.std.specs.Prelude.{◌≡◌, ◌<◌, ◌≤◌};
ghost use Rattle.tl_runner_threads.specs.Courses.{IsClientCourse};
ghost use Rattle.tl_runner_threads.specs.declared.workers.End.{End};

use crate::course::Course;
use crate::threads::Work;
use crate::workers::{End, Shared, end_after};
use std::sync::Wait;
use std::time::Clock;
use tl_client::{Agent, Gate, Port};
use tl_client_mail::Mail;
use tl_tickets::Ringer;
use tl_types::ClientId;

/// A client's thread owns its agent, its mail, and a seat at the stop bell.
#[derive(Drop)]
pub(crate) struct ClientWorker<'s, 'x> {
    pub(crate) client: ClientId,
    pub(crate) agent: Agent<'s>,
    pub(crate) mail: Mail<'x>,
    pub(crate) stop: Ringer<'x>,
    pub(crate) end: End,
}

/// An agent's turns, until one is the last, a ring of the stop bell is heard, or none is left. Where that bell was rung
/// before, it makes none.
pub fn client_turns<P: Port, R: Wait + Clock, G: Gate>(
    rt: &R,
    shared: &Shared<'_, G>,
    port: &mut P,
    agent: &mut Agent<'_>,
    mail: &mut Mail<'_>,
    course: &mut Course<'_>,
) -> End
    ensures course { IsClientCourse shared.now.clients agent.old mail.old course.old
        agent.new mail.new course.new result }
    ensures stopped { 0 < course.old.stop.seat.seen → 0 < course.old.left → result ≡ End.Stopped }
    ensures finished { result ≡ End.Finished → shared.now.clients ≤ mail.new.done.seat.seen }
{
    'turns: loop {
        if let Some(end) = course.end_before_turn() {
            return end;
        }
        if let Some(end) = end_after(agent.turn(rt, port, shared.gate, shared.clients, mail)) {
            return end;
        }
    }
}

impl<'s, 'x, 'y, G: Gate> Work<Shared<'y, G>> for ClientWorker<'s, 'x> {
    ghost use Rattle.tl_runner_threads.specs.Courses.{IsClientDone};

    ghost works = { λ shared old new. IsClientDone shared.clients shared.turns old new };

    fn work<R: Wait + Clock>(self, rt: &R, shared: &Shared<'y, G>) -> Self {
        let ClientWorker {
            client,
            mut agent,
            mut mail,
            stop,
            end: _,
        } = self;
        let mut port = shared
            .locked
            .client_port(rt, shared.alloc, shared.gate, client);
        let mut course = Course::new(stop, shared.turns);
        let end = client_turns(rt, shared, &mut port, &mut agent, &mut mail, &mut course);
        let stop = course.close(end);
        ClientWorker {
            client,
            agent,
            mail,
            stop,
            end,
        }
    }
}
