//! Which names an object of files was given, and where its latest fault was: what `take` and `end` need so that they
//! can note a fault without memory.

ghost use Rattle.std.specs.Prelude.{◌≡◌, ◌≤◌, None, Some, OnOk, OnErr, option_map, IsSome, is_some};
ghost use Rattle.outside.specs.Places.{no_places, raised};

use crate::Way;
use std::alloc::{AllocError, Global};
use std::marker::Model;

/// The number of a name, and what was done to its file.
#[derive(Clone, Copy, Debug, PartialEq, Eq)]
struct Place {
    name: usize,
    way: Way,
}

/// The name last opened, the name that is being written, the place of the latest fault, and the count of faults.
///
/// Each name is kept once it was given, and the others are numbers of names, since a place outlives the name that is
/// open: it grows by a name with each file that is opened or begun.
#[derive(Drop)]
pub(crate) struct Places {
    alloc: Global,
    names: Vec<String>,
    opened: Option<usize>,
    writing: Option<usize>,
    latest: Option<Place>,
    faults: u64,
}

impl Model for Places {
    ghost use Rattle.outside.specs.Places.{PlacesView};

    ghost Value = { PlacesView };

    ghost use Rattle.outside.specs.inside.Places.{places_view, HasNames};

    ghost view = { places_view };

    ghost invariant = { HasNames };
}

impl Places {
    /// No name was given yet.
    pub(crate) fn new(alloc: Global) -> Self
        ensures { result ≡ no_places }
    {
        Places {
            alloc,
            names: Vec::new(alloc),
            opened: None,
            writing: None,
            latest: None,
            faults: 0,
        }
    }

    /// The name becomes the one last opened.
    pub(crate) fn open(&mut self, name: &str) -> Result<(), AllocError>
        ensures ok { OnOk result (self.new ≡ record self.old { opened = Some name.now }) }
        ensures err { OnErr result (self.new ≡ self.old) }
    {
        let text = String::from_str(self.alloc, name)?;
        self.names.push(text)?;
        self.opened = Some(self.names.len() - 1);
        Ok(())
    }

    /// The name becomes the one that is being written. After a refusal none is.
    pub(crate) fn begin(&mut self, name: &str) -> Result<(), AllocError>
        ensures ok { OnOk result (self.new ≡ record self.old { writing = Some name.now }) }
        ensures err { OnErr result (self.new ≡ record self.old { writing = None }) }
    {
        self.writing = None;
        let text = String::from_str(self.alloc, name)?;
        self.names.push(text)?;
        self.writing = Some(self.names.len() - 1);
        Ok(())
    }

    /// No name is being written any more.
    pub(crate) fn end(&mut self)
        ensures { self.new ≡ record self.old { writing = None } }
    {
        self.writing = None;
    }

    /// Counts a fault on reading the name last opened.
    pub(crate) fn note_reading(&mut self)
        ensures later { self.old.faults ≤ self.new.faults }
        ensures noted { self.new ≡ record self.old {
          latest = option_map (λ name. (name, Way.Reading)) self.old.opened;
          faults = raised self.old.faults;
        } }
    {
        self.latest = self.opened.map(|name| Place {
            name,
            way: Way::Reading,
        });
        self.faults = self.faults.saturating_add(1);
    }

    /// Counts a fault on writing the name that is being written.
    pub(crate) fn note_writing(&mut self)
        ensures later { self.old.faults ≤ self.new.faults }
        ensures noted { self.new ≡ record self.old {
          latest = option_map (λ name. (name, Way.Writing)) self.old.writing;
          faults = raised self.old.faults;
        } }
    {
        self.latest = self.writing.map(|name| Place {
            name,
            way: Way::Writing,
        });
        self.faults = self.faults.saturating_add(1);
    }

    /// Whether a name was opened.
    pub(crate) fn has_opened(&self) -> bool
        ensures { result ≡ is_some self.now.opened }
    {
        self.opened.is_some()
    }

    /// The name that is being written.
    pub(crate) fn writing_name(&self) -> &str
        requires { IsSome self.now.writing }
        ensures { self.now.writing ≡ Some result.now }
    {
        let number = self.writing.unwrap();
        self.names[number].as_str()
    }
}
