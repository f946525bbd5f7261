//! A report as it stands in JSON: outlines in place of numbers of entries.

ghost use Rattle.std.specs.Prelude.{◌≡◌};

use std::marker::Model;
use stroke::Outline;

/// A conflict: an outline, how many of its strokes stand before the boundary, and words of so many strokes.
#[derive(Debug, Drop)]
pub struct JsonRow {
    pub(crate) outline: Outline,
    pub(crate) place: u8,
    pub(crate) strokes: u32,
    pub(crate) words: Vec<Outline>,
}

impl Model for JsonRow {
    ghost use Rattle.report_json.specs.JsonReports.{JsonRowView};

    ghost Value = { JsonRowView };

    ghost view = { λ r. record {
      outline = r.outline;
      place = r.place;
      strokes = r.strokes;
      words = r.words.items;
    } };
}

impl JsonRow {
    /// The entry's outline.
    pub fn outline(&self) -> &Outline
        ensures { result.now ≡ self.now.outline }
    {
        &self.outline
    }

    /// How many strokes of the outline come before the boundary.
    pub fn place(&self) -> u8
        ensures { result ≡ self.now.place }
    {
        self.place
    }

    /// How many strokes the words have together.
    pub fn strokes(&self) -> u32
        ensures { result ≡ self.now.strokes }
    {
        self.strokes
    }

    /// The words.
    pub fn words(&self) -> &[Outline]
        ensures { result.now ≡ self.now.words }
    {
        self.words.as_slice()
    }
}

/// A report: its counts and its conflicts.
#[derive(Debug, Drop)]
pub struct JsonReport {
    pub(crate) entries: u32,
    pub(crate) folded: u64,
    pub(crate) rounds: u32,
    pub(crate) skipped: u64,
    pub(crate) states: u32,
    pub(crate) strokes: u32,
    pub(crate) rows: Vec<JsonRow>,
}

impl Model for JsonReport {
    ghost use Rattle.report_json.specs.JsonReports.{JsonReportView};

    ghost Value = { JsonReportView };

    ghost view = { λ r. record {
      entries = r.entries;
      folded = r.folded;
      rounds = r.rounds;
      skipped = r.skipped;
      states = r.states;
      strokes = r.strokes;
      rows = r.rows.items;
    } };
}

impl JsonReport {
    /// How many entries the dictionaries have.
    pub fn entries(&self) -> u32
        ensures { result ≡ self.now.entries }
    {
        self.entries
    }

    /// How many keys spell an outline that another key of the same file spells too.
    pub fn folded(&self) -> u64
        ensures { result ≡ self.now.folded }
    {
        self.folded
    }

    /// One more than the greatest number of strokes that leads to a state at best.
    pub fn rounds(&self) -> u32
        ensures { result ≡ self.now.rounds }
    {
        self.rounds
    }

    /// How many keys spell no outline.
    pub fn skipped(&self) -> u64
        ensures { result ≡ self.now.skipped }
    {
        self.skipped
    }

    /// How many states are reached.
    pub fn states(&self) -> u32
        ensures { result ≡ self.now.states }
    {
        self.states
    }

    /// How many different strokes the entries have.
    pub fn strokes(&self) -> u32
        ensures { result ≡ self.now.strokes }
    {
        self.strokes
    }

    /// The conflicts.
    pub fn rows(&self) -> &[JsonRow]
        ensures { result.now ≡ self.now.rows }
    {
        self.rows.as_slice()
    }
}
