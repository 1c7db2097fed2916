//! A home's thread.
ghost use Rattle.std.specs.Prelude.{◌≡◌, ◌<◌, ◌≤◌};
ghost use Rattle.tl_runner_threads.specs.Courses.{IsCourseAtBank, IsHomeCourse};
ghost use Rattle.tl_runner_threads.specs.declared.workers.End.{End};

use crate::course::Course;
use crate::threads::Work;
use crate::workers::{End, Shared, end_after};
use std::sync::Wait;
use std::time::Clock;
use tl_client::{Gate, Home, HomePort};
use tl_client_mail::Mail;
use tl_tickets::Ringer;
use tl_types::BankNo;

/// A home's thread owns its home, its mail, and a seat at the stop bell.
#[derive(Drop)]
pub(crate) struct HomeWorker<'x> {
    pub(crate) number: BankNo,
    pub(crate) home: Home,
    pub(crate) mail: Mail<'x>,
    pub(crate) stop: Ringer<'x>,
    pub(crate) end: End,
}

/// A home's turns, until one is the last, a ring of the stop bell is heard, or none is left. Where that bell was rung
/// before, it makes none.
pub fn home_turns<P: HomePort, R: Wait + Clock, G: Gate>(
    rt: &R,
    shared: &Shared<'_, G>,
    port: &mut P,
    home: &mut Home,
    mail: &mut Mail<'_>,
    course: &mut Course<'_>,
) -> End
    ensures course { IsHomeCourse shared.now.clients home.old mail.old course.old home.new mail.new course.new result }
    ensures stopped { 0 < course.old.stop.seat.seen → 0 < course.old.left → result ≡ End.Stopped }
    ensures finished { result ≡ End.Finished → shared.now.clients ≤ mail.new.done.seat.seen }
{
    'turns: loop {
        if let Some(end) = course.end_before_turn() {
            return end;
        }
        if let Some(end) = end_after(home.turn(rt, port, shared.gate, shared.clients, mail)) {
            return end;
        }
    }
}

/// A home's turns at its bank. Where no bank has its number, it is stopped at once.
fn turns_at_bank<R: Wait + Clock, G: Gate>(
    rt: &R,
    shared: &Shared<'_, G>,
    number: BankNo,
    home: &mut Home,
    mail: &mut Mail<'_>,
    course: &mut Course<'_>,
) -> End
    ensures { IsCourseAtBank shared.now.locked.now.numbers number shared.now.clients home.old mail.old course.old
        home.new mail.new course.new result }
{
    match shared.locked.home_port(rt, shared.gate, number) {
        Some(mut port) => home_turns(rt, shared, &mut port, home, mail, course),
        None => End::Stopped,
    }
}

impl<'x, 'y, G: Gate> Work<Shared<'y, G>> for HomeWorker<'x> {
    ghost use Rattle.tl_runner_threads.specs.Courses.{IsHomeDone};

    ghost works = { λ shared old new. IsHomeDone shared.locked.now.numbers shared.clients shared.turns old new };

    fn work<R: Wait + Clock>(self, rt: &R, shared: &Shared<'y, G>) -> Self {
        let HomeWorker {
            number,
            mut home,
            mut mail,
            stop,
            end: _,
        } = self;
        let mut course = Course::new(stop, shared.turns);
        let end = turns_at_bank(rt, shared, number, &mut home, &mut mail, &mut course);
        let stop = course.close(end);
        HomeWorker {
            number,
            home,
            mail,
            stop,
            end,
        }
    }
}
