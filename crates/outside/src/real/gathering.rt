//! What is put to a real file is gathered, so that many short pieces cost few calls of the system.

ghost use Rattle.std.specs.Prelude.{◌≡◌, ◌<◌, true, vec_len};
ghost use Rattle.outside.specs.inside.Gathering.{gathered_size};

use std::io::Write;

/// How many bytes the system is given at once.
pub(crate) const GATHERED: usize = 65536;

/// Gives the system all bytes that were gathered, and answers whether it took them. None is kept.
pub(crate) fn write_out<W: Write>(file: &mut W, gathered: &mut Vec<u8>) -> bool
    ensures { vec_len gathered.new ≡ 0 }
{
    let taken = file.write_all(gathered).is_ok();
    gathered.clear();
    taken
}

/// Answers whether there is room to gather more: where there is none, the system is given what was gathered.
pub(crate) fn make_room<W: Write>(file: &mut Option<W>, gathered: &mut Vec<u8>) -> bool
    ensures { result ≡ true → vec_len gathered.new < gathered_size }
{
    match file {
        Some(file) => gathered.len() < GATHERED || write_out(file, gathered),
        None => false,
    }
}
