//! What is found: two readings.
ghost use Rattle.std.specs.Prelude.{◌≡◌};

use std::marker::Model;

/// Two lists of words that have the same strokes.
#[derive(Drop)]
pub struct Readings {
    strokes: u32,
    first: Vec<u32>,
    second: Vec<u32>,
}

impl Model for Readings {
    ghost use Rattle.free_parse.specs.FoundReadings.{ReadingsView};

    ghost Value = { ReadingsView };

    ghost view = { λ r. record {
      strokes = r.strokes;
      first = r.first.items;
      second = r.second.items;
    } };
}

impl Readings {
    /// These readings as they are.
    pub(crate) fn new(strokes: u32, first: Vec<u32>, second: Vec<u32>) -> Readings
        ensures { result ≡ record {
          strokes = strokes;
          first = first.items;
          second = second.items;
        } }
    {
        Readings {
            strokes,
            first,
            second,
        }
    }

    /// How many strokes they have.
    pub fn strokes(&self) -> u32
        ensures { result ≡ self.now.strokes }
    {
        self.strokes
    }

    /// The numbers of the entries of the first reading, which has the least place of a boundary that the other lacks.
    pub fn first(&self) -> &[u32]
        ensures { result.now ≡ self.now.first }
    {
        self.first.as_slice()
    }

    /// The numbers of the entries of the second reading.
    pub fn second(&self) -> &[u32]
        ensures { result.now ≡ self.now.second }
    {
        self.second.as_slice()
    }
}
