//! The numbers within a part: two lengths and a mark as one number, and back.
ghost use Rattle.std.specs.Prelude.{◌≡◌, ◌≤◌, ◌<◌, ◌+◌};
ghost use Rattle.steno_rules.specs.StateNumbers.{number_within, part_size, triangle};
ghost use Rattle.state_numbering.specs.inside.Offsets.{HasOffset, IsMarked};

/// The lengths of a state's window and open word, and its mark.
#[derive(Clone, Copy, Debug, PartialEq, Eq)]
pub(crate) struct Lengths {
    pub(crate) window: u32,
    pub(crate) word: u32,
    pub(crate) mark: Option<u8>,
}

/// The sum of the numbers up to one.
fn sum_to(mark: u32) -> u32
    requires { mark ≤ 65 }
    ensures { result ≡ triangle mark }
{
    mark * (mark + 1) / 2
}

/// The number of these lengths and this mark within their part.
pub(crate) fn offset_of(lengths: Lengths) -> u32
    requires window { lengths.window ≤ 64 }
    requires word { lengths.word ≤ 64 }
    requires mark { IsMarked lengths.window lengths.word lengths.mark }
    ensures { result ≡ number_within lengths.window lengths.word lengths.mark }
{
    let Lengths { window, word, mark } = lengths;
    match mark {
        Some(mark) => 2 * window + 1 + sum_to(u32::from(mark)) + word,
        None => {
            if word <= window {
                word
            } else {
                word + 1 + window
            }
        }
    }
}

/// The greatest number of which the sum up to it is no more.
fn root_of(sum: u32) -> u32
    requires { sum < triangle 64 }
    ensures small { result < 64 }
    ensures from { triangle result ≤ sum }
    ensures before { sum < triangle (result + 1) }
{
    for root in 0..63 {
        if sum < sum_to(root + 1) {
            return root;
        }
    }
    63
}

/// The lengths and the mark that have this number within the part of a node of so many strokes.
pub(crate) fn lengths_at(depth: u32, offset: u32) -> Lengths
    requires depth { depth ≤ 64 }
    requires offset { offset < part_size depth }
    ensures { HasOffset depth offset result }
{
    if offset <= depth {
        return Lengths {
            window: depth,
            word: offset,
            mark: None,
        };
    }
    if offset < 2 * depth + 1 {
        return Lengths {
            window: offset - depth - 1,
            word: depth,
            mark: None,
        };
    }
    let rest = offset - (2 * depth + 1);
    let mark = root_of(rest);
    Lengths {
        window: depth,
        word: rest - sum_to(mark),
        mark: Some(mark as u8),
    }
}
