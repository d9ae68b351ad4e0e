//! Pictures: items in a frame, with the rules that the type keeps; and what can be wrong with one.
ghost use Rattle.std.specs.Prelude.{◌≡◌, ◌+◌, ◌<◌, ◌^◌, [], ◌∷◌, ◌++◌, length, OnOk, OnErr};
ghost use Rattle.std.specs.List.{AllByRecursion};
ghost use Rattle.st_shape.specs.Rules.{FitsFrame, IsFrame, IsPicture};

use crate::{Item, Point};
use st_ids::NoMemory;
use std::alloc::Global;
use std::marker::Model;

/// How a graph is drawn.
#[derive(Clone, Copy, Debug, PartialEq, Eq)]
pub enum Form {
    Visibility,
    Tessellation,
    Constrained,
    Polyline,
    Dominance,
}

/// What is wrong with a picture.
#[derive(Clone, Copy, Debug, PartialEq, Eq)]
pub enum Fault {
    /// This item is faulty by itself.
    Alone { item: u32 },
    /// These two items are a faulty pair.
    Pair { first: u32, second: u32 },
    /// The areas of the boxes don't sum to the area of the frame.
    Area,
}

/// Items in a frame, whose low corner is (0, 0).
///
/// The type keeps these rules: the coordinates of the frame are from 0 to `GREATEST`, every point lies between (0, 0) and
/// the frame, `from` is at most `to`, a box is wider and higher than 0, a label has 1 to 80 bytes from 32 to 126, and there
/// are fewer than 2^31 items. A contract sees the form, the frame and the list of items.
#[derive(Drop)]
pub struct Picture {
    form: Form,
    frame: Point,
    items: Vec<Item>,
}

impl Model for Picture {
    ghost use Rattle.st_shape.specs.Rules.{Drawing, IsPicture};

    ghost Value = { Drawing };

    ghost view = { λ a. record { form = a.form; frame = a.frame; items = a.items.items } };

    ghost invariant = { λ a. IsPicture record { form = a.form; frame = a.frame; items = a.items.items } };
}

impl Picture {
    /// A picture with no item. It takes no memory.
    pub fn new(alloc: Global, form: Form, frame: Point) -> Picture
        requires { IsFrame frame }
        ensures { result ≡ record { form = form; frame = frame; items = [] } }
    {
        Picture {
            form,
            frame,
            items: Vec::new(alloc),
        }
    }

    /// Adds an item behind the others.
    ///
    /// Condition: the item fits the frame (`Item::fits` tells), and there is room for one more.
    /// Errors: `NoMemory`; the picture is as before, and the item is dropped.
    pub fn push(&mut self, item: Item) -> Result<(), NoMemory>
        requires fits { FitsFrame self.old.frame item }
        requires room { length self.old.items + 1 < 2 ^ 31 }
        ensures ok { OnOk result (self.new ≡ record self.old { items = self.old.items ++ item ∷ [] }) }
        ensures err { OnErr result (self.new ≡ self.old) }
    {
        match self.items.push(item) {
            Ok(()) => Ok(()),
            Err(_) => Err(NoMemory),
        }
    }

    /// Makes room for so many more items, and for no others. The picture stays as it is.
    ///
    /// Errors: `NoMemory`.
    /// Cost: one block for all items, to which those that are there move.
    pub fn reserve(&mut self, more: u32) -> Result<(), NoMemory>
        ensures { self.new ≡ self.old }
    {
        match self.items.reserve_exact(more as usize) {
            Ok(()) => Ok(()),
            Err(_) => Err(NoMemory),
        }
    }

    /// How the graph is drawn.
    pub fn form(&self) -> Form
        ensures { result ≡ self.now.form }
    {
        self.form
    }

    /// The corner of the frame over against (0, 0).
    pub fn frame(&self) -> Point
        ensures { result ≡ self.now.frame }
    {
        self.frame
    }

    /// The items, in the order in which they were added.
    pub fn items(&self) -> &[Item]
        ensures same { result.now ≡ self.now.items }
        ensures rules { IsPicture self.now }
    {
        &self.items
    }
}
