//! How far long work is, told while it goes on.
ghost use Rattle.std.specs.Prelude.{◌≡◌, ◌==◌, ◌<◌, ◌≤◌, ◌*◌, ◌/◌, count_by};

use crate::writing::write_whole;
use arrayvec::ArrayVec;
use std::io::{Read, Write};
use std::time::{Clock, Instant};
use std::{fmt, io};

/// The time from one telling to the next, in milliseconds.
const PAUSE: u128 = 500;

/// The bytes of the longest telling, with room.
const TELLING: usize = 160;

/// Who is told how far work is.
pub trait Watcher {
    /// So many bytes and lines more were worked on.
    fn passed(&mut self, bytes: u64, lines: u64);
}

/// Nobody is told.
impl Watcher for () {
    fn passed(&mut self, _bytes: u64, _lines: u64) {}
}

/// Somebody is told, or nobody.
impl<T: Watcher> Watcher for Option<T> {
    fn passed(&mut self, bytes: u64, lines: u64) {
        if let Some(watcher) = self {
            watcher.passed(bytes, lines);
        }
    }
}

/// Tells a writer twice a second how far work is: the lines so far, the share of the whole where that is known, and the
/// lines a second. On a terminal each telling takes the place of the one before it; elsewhere each is a line. A writer
/// that takes nothing stops nothing.
#[derive(Drop)]
pub struct Progress<W, C> {
    to: W,
    clock: C,
    is_terminal: bool,
    whole: Option<u64>,
    bytes: u64,
    lines: u64,
    begun: Instant,
    told: Instant,
}

// What is told.
#[derive(Clone, Copy)]
struct Telling {
    lines: u64,
    percent: Option<u64>,
    rate: u128,
}

impl fmt::Display for Telling {
    ghost use Rattle.std.specs.Prelude.{Some};
    ghost use Rattle.tl_streams.specs.Progress.{telling_text};

    ghost output = { λ t. Some (telling_text t.lines t.percent t.rate) };

    fn fmt<W: fmt::Write>(&self, f: &mut fmt::Formatter<W>) -> fmt::Result {
        let (lines, rate) = (self.lines, self.rate);
        match self.percent {
            Some(percent) => {
                write!(
                    f,
                    "{lines} lines, {percent} % of the file, {rate} lines a second"
                )
            }
            None => write!(f, "{lines} lines, {rate} lines a second"),
        }
    }
}

/// The share of a whole, in percent; all of it where there is no more.
fn percent(bytes: u64, whole: u64) -> u64
    ensures part { bytes < whole → result ≡ bytes * 100 / whole }
    ensures all { whole ≤ bytes → result ≡ 100 }
{
    if bytes < whole {
        (bytes as u128 * 100 / whole as u128) as u64
    } else {
        100
    }
}

/// How many lines a second, from lines and milliseconds.
fn rate(lines: u64, millis: u128) -> u128
    ensures { 0 < millis → result ≡ lines * 1000 / millis }
{
    lines as u128 * 1000 / millis.max(1)
}

impl<W: Write + Drop, C: Clock + Drop> Progress<W, C> {
    /// Nothing is done of a whole of so many bytes, where they are known. None where the clock has no time.
    pub fn begin(to: W, clock: C, is_terminal: bool, whole: Option<u64>) -> Option<Progress<W, C>> {
        let now = Instant::now(&clock).ok()?;
        Some(Progress {
            to,
            clock,
            is_terminal,
            whole,
            bytes: 0,
            lines: 0,
            begun: now,
            told: now,
        })
    }

    /// Tells how far work is now.
    fn tell(&mut self, now: Instant) -> io::Result<()> {
        let telling = Telling {
            lines: self.lines,
            percent: self.whole.map(|whole| percent(self.bytes, whole)),
            rate: rate(self.lines, now.duration_since(self.begun).as_millis()),
        };
        let mut text: ArrayVec<u8, TELLING> = ArrayVec::new();
        if self.is_terminal {
            write!(text, "\r{telling}\x1b[K")?;
        } else {
            writeln!(text, "{telling}")?;
        }
        write_whole(&mut self.to, text.as_slice())
    }

    /// Clears the last telling, where it stands on a terminal, for what is written next.
    pub fn end(mut self) {
        if self.is_terminal {
            let _ = write_whole(&mut self.to, b"\r\x1b[K");
        }
    }
}

impl<W: Write + Drop, C: Clock + Drop> Watcher for Progress<W, C> {
    fn passed(&mut self, bytes: u64, lines: u64) {
        self.bytes = self.bytes.saturating_add(bytes);
        self.lines = self.lines.saturating_add(lines);
        if let Ok(now) = Instant::now(&self.clock) {
            if now.duration_since(self.told).as_millis() >= PAUSE {
                self.told = now;
                let _ = self.tell(now);
            }
        }
    }
}

/// A reader of which somebody is told what was read.
#[derive(Drop)]
pub struct Watched<R, T> {
    reader: R,
    watcher: T,
}

impl<R, T> Watched<R, T> {
    /// A reader whose reads are told to a watcher.
    pub fn new(reader: R, watcher: T) -> Watched<R, T> {
        Watched { reader, watcher }
    }
}

impl<R: Drop, T> Watched<R, T> {
    /// Who was told.
    pub fn into_watcher(self) -> T {
        let Watched { reader: _, watcher } = self;
        watcher
    }
}

/// How many lines end among some bytes.
fn lines_in(bytes: &[u8]) -> u64
    ensures { result ≡ count_by (λ byte. byte == 10) bytes.now }
{
    bytes.iter().filter(|byte| **byte == b'\n').count() as u64
}

impl<R: Read, T: Watcher> Read for Watched<R, T> {
    ghost remaining = { λ w. R.remaining w.reader };

    fn read(&mut self, buf: &mut [u8]) -> io::Result<usize> {
        let count = self.reader.read(buf)?;
        self.watcher.passed(count as u64, lines_in(&buf[..count]));
        Ok(count)
    }
}
