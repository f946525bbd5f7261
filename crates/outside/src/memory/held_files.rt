//! Files in memory, whose calls never fail but for want of memory: what `MemFiles` and `PlainFiles` are made of.

ghost use Rattle.std.specs.Prelude.{◌≡◌, ◌≤◌, ◌<◌, ◌++◌, ℕ, List, [], Some, OnOk, OnErr, IfOk, IsSome, IfSome, is_some, option_map, length, take, drop, min};
ghost use Rattle.std.specs.Option.{unwrap_or};
ghost use Rattle.outside.specs.Places.{raised};
ghost use Rattle.outside.specs.HeldFiles.{held_of, held_view, kept_in, no_files, Sets};

use crate::Way;
use crate::places::Places;
use std::alloc::{AllocError, Global};
use std::collections::BTreeMap;

/// Files by name, with what is left of a copy of the one that is being read.
#[derive(Drop)]
pub(crate) struct HeldFiles {
    alloc: Global,
    files: BTreeMap<String, Vec<u8>>,
    rest: Vec<u8>,
    at: usize,
    places: Places,
}

/// Holds a file with these bytes, in the place of one of that name.
fn set_file(
    files: &mut BTreeMap<String, Vec<u8>>,
    alloc: Global,
    name: &str,
    bytes: &[u8],
) -> Result<(), AllocError>
    ensures ok { OnOk result (Sets name.now bytes.now (kept_in files.old) (kept_in files.new)) }
    ensures err { OnErr result (kept_in files.new ≡ kept_in files.old) }
{
    let copy = bytes.to_vec(alloc)?;
    let name = String::from_str(alloc, name)?;
    files.insert(name, copy)?;
    Ok(())
}

/// Adds bytes to the named file, which is made where it isn't held.
fn extend_file(
    files: &mut BTreeMap<String, Vec<u8>>,
    alloc: Global,
    name: &str,
    piece: &[u8],
) -> Result<(), AllocError>
    ensures ok { let before = kept_in files.old in
        OnOk result (Sets name.now (held_of before name.now ++ piece.now) before (kept_in files.new)) }
    ensures err { OnErr result (kept_in files.new ≡ kept_in files.old) }
{
    let Some(bytes) = files.get_mut(name) else {
        return set_file(files, alloc, name, piece);
    };
    if bytes.extend_from_slice(piece).is_err() {
        return Err(AllocError);
    }
    Ok(())
}

/// The bytes of the named file, which are none where it isn't held.
fn file_bytes<'a>(files: &'a BTreeMap<String, Vec<u8>>, name: &str) -> &'a [u8]
    ensures { result.now ≡ held_of (kept_in files.now) name.now }
{
    match files.get(name) {
        Some(bytes) => bytes.as_slice(),
        None => &[],
    }
}

/// What is left of a list from a place on.
fn rest_from(list: &[u8], at: usize) -> &[u8]
    ensures { result.now ≡ drop at list.now }
{
    if at < list.len() { &list[at..] } else { &[] }
}

/// Copies what fits from the front of one slice to the front of another.
fn copy_front(from: &[u8], into: &mut [u8]) -> usize
    ensures bound { result ≤ length into.new }
    ensures within { result ≤ length from.now }
    ensures moved { take result into.new ≡ take result from.now }
    ensures all { result ≡ min (length into.new) (length from.now) }
{
    let count = from.len().min(into.len());
    into[..count].copy_from_slice(&from[..count]);
    count
}

impl HeldFiles {
    /// No files.
    pub(crate) fn new(alloc: Global) -> Self
        ensures { held_view result ≡ no_files }
    {
        HeldFiles {
            alloc,
            files: BTreeMap::new(alloc),
            rest: Vec::new(alloc),
            at: 0,
            places: Places::new(alloc),
        }
    }

    /// Holds a file with these bytes, in the place of one of that name.
    pub(crate) fn add(&mut self, name: &str, bytes: &[u8]) -> Result<(), AllocError>
        ensures ok { OnOk result
            (Sets name.now bytes.now (held_view self.old).kept (held_view self.new).kept) }
        ensures err { OnErr result ((held_view self.new).kept ≡ (held_view self.old).kept) }
        ensures others { held_view self.new ≡
            record (held_view self.old) { kept = (held_view self.new).kept } }
    {
        set_file(&mut self.files, self.alloc, name, bytes)
    }

    /// The bytes of the named file, None where it isn't held.
    pub(crate) fn bytes(&self, name: &str) -> Option<&[u8]>
        ensures { option_map (λ bytes. bytes.now) result ≡ (held_view self.now).kept name.now }
    {
        self.files.get(name).map(|bytes| bytes.as_slice())
    }

    /// The file's bytes become the rest. A refusal leaves an empty rest.
    pub(crate) fn open(&mut self, name: &str) -> Result<(), AllocError>
        ensures ok { let before = held_view self.old in
            let after = held_view self.new in
            OnOk result (after ≡ record before {
              rest = held_of before.kept name.now;
              places = record before.places { opened = Some name.now };
            }) }
        ensures err { OnErr result
            (held_view self.new ≡ record (held_view self.old) { rest = [] }) }
    {
        self.rest.clear();
        self.at = 0;
        self.rest.extend_from_slice(file_bytes(&self.files, name))?;
        if self.places.open(name).is_err() {
            self.rest.clear();
            return Err(AllocError);
        }
        Ok(())
    }

    /// Moves the first bytes of the rest to the front of the slice.
    pub(crate) fn take(&mut self, into: &mut [u8]) -> usize
        ensures leaves { held_view self.new ≡
            record (held_view self.old) { rest = (held_view self.new).rest } }
        ensures bound { result ≤ length into.new }
        ensures moved { (held_view self.old).rest ≡
            take result into.new ++ (held_view self.new).rest }
        ensures end { result ≡ 0 → 0 < length into.new → (held_view self.old).rest ≡ [] }
        ensures all { result ≡ min (length into.new) (length (held_view self.old).rest) }
    {
        let rest = rest_from(&self.rest, self.at);
        let count = copy_front(rest, into);
        self.at += count;
        count
    }

    /// The file becomes empty and is being written. After a refusal none is, and all are as they were. The rest becomes
    /// empty.
    pub(crate) fn begin(&mut self, name: &str) -> Result<(), AllocError>
        ensures ok { OnOk result
            (Sets name.now [] (held_view self.old).kept (held_view self.new).kept) }
        ensures err { OnErr result ((held_view self.new).kept ≡ (held_view self.old).kept) }
        ensures ok_others { let before = held_view self.old in
            let after = held_view self.new in
            OnOk result (after ≡ record before {
              kept = after.kept;
              rest = [];
              places = record before.places { writing = Some name.now };
            }) }
        ensures err_others { let before = held_view self.old in
            let after = held_view self.new in
            OnErr result (after ≡ record before {
              kept = after.kept;
              rest = [];
              places = record before.places { writing = None };
            }) }
    {
        self.rest.clear();
        self.at = 0;
        self.places.begin(name)?;
        if set_file(&mut self.files, self.alloc, name, &[]).is_err() {
            self.places.end();
            return Err(AllocError);
        }
        Ok(())
    }

    /// Adds the bytes to the file that is being written.
    pub(crate) fn put(&mut self, piece: &[u8]) -> Result<(), AllocError>
        requires { IsSome (held_view self.old).places.writing }
        ensures ok { let before = held_view self.old in
            let after = held_view self.new in
            OnOk result (IfSome before.places.writing (λ name.
            Sets name (held_of before.kept name ++ piece.now) before.kept after.kept)) }
        ensures err { OnErr result ((held_view self.new).kept ≡ (held_view self.old).kept) }
        ensures others { held_view self.new ≡
            record (held_view self.old) { kept = (held_view self.new).kept } }
    {
        extend_file(
            &mut self.files,
            self.alloc,
            self.places.writing_name(),
            piece,
        )
    }

    /// Afterwards no file is being written.
    pub(crate) fn end(&mut self)
        ensures { held_view self.new ≡ record (held_view self.old) {
          places = record ((held_view self.old).places) { writing = None };
        } }
    {
        self.places.end();
    }

    /// Whether the name is held.
    pub(crate) fn holds(&self, name: &str) -> bool
        ensures { result ≡ is_some ((held_view self.now).kept name.now) }
    {
        self.files.get(name).is_some()
    }

    /// Whether a name was opened.
    pub(crate) fn has_opened(&self) -> bool
        ensures { result ≡ is_some (held_view self.now).places.opened }
    {
        self.places.has_opened()
    }

    /// What a device does that fails to open the file: the name is the one last opened, the rest is empty, and the
    /// fault is counted. A refusal leaves an empty rest.
    pub(crate) fn fail_to_open(&mut self, name: &str) -> Result<(), AllocError>
        ensures later { (held_view self.old).places.faults ≤ (held_view self.new).places.faults }
        ensures ok { let before = held_view self.old in
            let after = held_view self.new in
            OnOk result (after ≡ record before {
              rest = [];
              places = record before.places {
                opened = Some name.now;
                latest = Some (name.now, Way.Reading);
                faults = raised before.places.faults;
              };
            }) }
        ensures err { OnErr result
            (held_view self.new ≡ record (held_view self.old) { rest = [] }) }
    {
        self.rest.clear();
        self.at = 0;
        self.places.open(name)?;
        self.places.note_reading();
        Ok(())
    }

    /// What a device does that fails to begin the file: no file is being written, the rest is empty, and the fault is
    /// counted at the name. After a refusal only that isn't.
    pub(crate) fn fail_to_begin(&mut self, name: &str) -> Result<(), AllocError>
        ensures later { (held_view self.old).places.faults ≤ (held_view self.new).places.faults }
        ensures ok { let before = held_view self.old in
            let after = held_view self.new in
            OnOk result (after ≡ record before {
              rest = [];
              places = record before.places {
                writing = None;
                latest = Some (name.now, Way.Writing);
                faults = raised before.places.faults;
              };
            }) }
        ensures err { let before = held_view self.old in
            let after = held_view self.new in
            OnErr result (after ≡ record before {
              rest = [];
              places = record before.places { writing = None };
            }) }
    {
        self.rest.clear();
        self.at = 0;
        self.places.begin(name)?;
        self.places.note_writing();
        self.places.end();
        Ok(())
    }

    /// Counts a fault on reading the name last opened.
    pub(crate) fn note_reading(&mut self)
        ensures later { (held_view self.old).places.faults ≤ (held_view self.new).places.faults }
        ensures noted { let before = held_view self.old in
            let after = held_view self.new in
            after ≡ record before {
              places = record before.places {
                latest = option_map (λ name. (name, Way.Reading)) before.places.opened;
                faults = raised before.places.faults;
              };
            } }
    {
        self.places.note_reading();
    }

    /// Counts a fault on writing the name that is being written.
    pub(crate) fn note_writing(&mut self)
        ensures later { (held_view self.old).places.faults ≤ (held_view self.new).places.faults }
        ensures noted { let before = held_view self.old in
            let after = held_view self.new in
            after ≡ record before {
              places = record before.places {
                latest = option_map (λ name. (name, Way.Writing)) before.places.writing;
                faults = raised before.places.faults;
              };
            } }
    {
        self.places.note_writing();
    }
}
