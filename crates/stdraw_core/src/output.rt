//! What a command answers: a text, or a picture whose text is made while it is written.
ghost use Rattle.std.specs.Prelude.{◌≡◌, OnOk, IsTrue};
ghost use Rattle.eps_core.specs.Text.{text as text_of};
ghost use Rattle.st_port.specs.Writes.{Writes};

use eps_core::write_eps;
use st_ids::Text;
use st_port::{Failed, Sink, write_all};
use st_shape::Picture;
use std::marker::Model;

/// A text as it is, or a picture in place of its text, so that no large text is held.
#[derive(Drop)]
pub enum Held {
    Text(Text),
    Picture(Picture),
}

/// What is written to the output. A contract sees its bytes.
#[derive(Drop)]
pub struct Output {
    held: Held,
}

impl Model for Output {
    ghost use Rattle.std.specs.Prelude.{List, ℕ};
    ghost use Rattle.stdraw_core.specs.Outputs.{bytes_of};

    ghost Value = { List ℕ };

    ghost view = { λ a. bytes_of a.held };
}

impl Output {
    /// This text.
    pub fn text(text: Text) -> Output
        ensures { result ≡ text }
    {
        Output {
            held: Held::Text(text),
        }
    }

    /// The EPS text of this picture.
    pub fn picture(picture: Picture) -> Output
        ensures { result ≡ text_of picture }
    {
        Output {
            held: Held::Picture(picture),
        }
    }

    // Writes all bytes: a text at once, since it is one block, a picture line by line through a buffer.
    fn write<K: Sink>(&self, sink: &mut K) -> Result<(), Failed>
        ensures writes { Writes (K.state sink.old) (K.state sink.new) result self.now }
    {
        match &self.held {
            Held::Text(text) => write_all(sink, text.bytes()),
            Held::Picture(picture) => write_eps(sink, picture),
        }
    }

    /// Writes all bytes and flushes. It takes no memory.
    pub fn emit<K: Sink>(&self, sink: &mut K) -> Result<(), Failed>
        ensures writes { Writes (K.state sink.old) (K.state sink.new) result self.now }
        ensures flushed { OnOk result (IsTrue (K.state sink.new).is_flushed) }
    {
        self.write(sink)?;
        sink.flush()
    }
}
