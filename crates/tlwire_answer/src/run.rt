//! A run as a record of events.
ghost use Rattle.std.specs.Prelude.{◌≡◌, Some};
ghost use Rattle.std.specs.List.{flat_map};
ghost use Rattle.tlwire_answer.specs.Run.{event_line, image_line, run_text, shape_line};

use std::fmt;
use tl_rules::{Event, Shape};
use tl_script_words::Hex;
use tlcheck_record::EventLine;

// The geometry.
#[derive(Clone, Copy)]
struct ShapeLine(Shape);

impl fmt::Display for ShapeLine {
    ghost output = { λ x. Some (shape_line x.0) };

    fn fmt<W: fmt::Write>(&self, f: &mut fmt::Formatter<W>) -> fmt::Result {
        let shape = self.0;
        write!(
            f,
            "clients {} block_bytes {} memory_blocks {}\n",
            shape.clients, shape.block_bytes, shape.blocks
        )
    }
}

// The image, where there is one.
#[derive(Clone, Copy)]
struct ImageLine<'a>(&'a [u8]);

impl fmt::Display for ImageLine<'_> {
    ghost output = { λ x. Some (image_line x.0.now) };

    fn fmt<W: fmt::Write>(&self, f: &mut fmt::Formatter<W>) -> fmt::Result {
        if self.0.is_empty() {
            Ok(())
        } else {
            write!(f, "image {}\n", Hex(self.0))
        }
    }
}

// An event.
#[derive(Clone, Copy)]
struct OneEvent<'a>(&'a Event);

impl fmt::Display for OneEvent<'_> {
    ghost output = { λ x. Some (event_line x.0.now) };

    fn fmt<W: fmt::Write>(&self, f: &mut fmt::Formatter<W>) -> fmt::Result {
        write!(f, "{}\n", EventLine(self.0))
    }
}

// The events.
#[derive(Clone, Copy)]
struct Events<'a>(&'a [Event]);

impl fmt::Display for Events<'_> {
    ghost output = { λ x. Some (flat_map event_line x.0.now) };

    fn fmt<W: fmt::Write>(&self, f: &mut fmt::Formatter<W>) -> fmt::Result {
        for event in self.0 {
            write!(f, "{}", OneEvent(event))?;
        }
        Ok(())
    }
}

/// A run over an image, as a record that the judge of events reads.
#[derive(Clone, Copy)]
pub(crate) struct RunText<'a> {
    pub(crate) shape: Shape,
    pub(crate) image: &'a [u8],
    pub(crate) events: &'a [Event],
}

impl fmt::Display for RunText<'_> {
    ghost output = { λ x. Some (run_text x.shape x.image.now x.events.now) };

    fn fmt<W: fmt::Write>(&self, f: &mut fmt::Formatter<W>) -> fmt::Result {
        write!(
            f,
            "{}{}{}",
            ShapeLine(self.shape),
            ImageLine(self.image),
            Events(self.events)
        )
    }
}
