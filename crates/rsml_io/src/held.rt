ghost use Rattle.std.specs.Prelude.{◌≡◌, ℕ, ◌+◌, ◌<◌, ◌≤◌, List, max, is_some, position, IfSome, OnOk, OnErr, length, option_map, take, drop};
ghost use Rattle.std.specs.Option.{option_copied};
ghost use Rattle.rsml_io.specs.Held.{named, file_of, faults_of, cut_of, uncut, ChangesFile, refused_once, reached, added};

use rsml_base::{NoMemory, Text};
use std::alloc::Global;

/// A file in memory, and what reads of it did.
#[derive(Drop)]
pub struct HeldFile {
    pub name: Text,
    pub bytes: Text,
    /// The furthest place at which a read ended.
    pub reach: u64,
    /// How many reads were refused.
    pub faults: u64,
}

/// The place from which on reads of a file are refused.
#[derive(Drop)]
pub struct Cut {
    pub name: Text,
    pub at: u64,
}

/// The file of that name.
pub fn file_of<'a>(files: &'a [HeldFile], name: &str) -> Option<&'a HeldFile>
    ensures { option_copied result ≡ file_of files.now name.now }
{
    files
        .iter()
        .find(|file| file.name.bytes() == name.as_bytes())
}

/// The place from which on reads of that name are refused.
pub fn cut_of(cuts: &[Cut], name: &str) -> Option<u64>
    ensures { result ≡ cut_of cuts.now name.now }
{
    cuts.iter()
        .rev()
        .find(|cut| cut.name.bytes() == name.as_bytes())
        .map(|cut| cut.at)
}

/// The bytes before the cut, if there is one.
pub fn uncut(bytes: &[u8], cut: Option<u64>) -> &[u8]
    ensures uncut { result.now ≡ uncut bytes.now cut }
    ensures within { length result.now ≤ length bytes.now }
{
    match cut {
        Some(cut) if cut < bytes.len() as u64 => &bytes[..cut as usize],
        _ => bytes,
    }
}

/// At most so many bytes from a place on.
pub fn piece_from(bytes: &[u8], at: u64, most: usize) -> &[u8]
    ensures piece { result.now ≡ take most (drop at bytes.now) }
    ensures within { at + length result.now ≤ max at (length bytes.now) }
{
    if at >= bytes.len() as u64 {
        return &[];
    }
    let rest = &bytes[at as usize..];
    &rest[..rest.len().min(most)]
}

/// The place of the first file of that name.
fn place_of(files: &[HeldFile], name: &str) -> Option<usize>
    ensures place { result ≡ position (named name.now) files.now }
    ensures within { IfSome result (λ place. place < length files.now) }
{
    files
        .iter()
        .position(|file| file.name.bytes() == name.as_bytes())
}

/// Counts a refused read, and says whether there is a file of that name.
pub fn count_fault(files: &mut Vec<HeldFile>, name: &str) -> bool
    ensures known { result ≡ is_some (file_of files.old.items name.now) }
    ensures file { ChangesFile (option_map refused_once)
        files.old.items files.new.items name.now }
    ensures count { (file : List ℕ) (unknown : ℕ) →
        faults_of files.old.items unknown file ≤ faults_of files.new.items unknown file }
{
    match place_of(files.as_slice(), name) {
        Some(place) => {
            let file = &mut files[place];
            file.faults = file.faults.saturating_add(1);
            true
        }
        None => false,
    }
}

/// Counts a read that ended there.
pub fn count_reach(files: &mut Vec<HeldFile>, name: &str, to: u64)
    ensures { ChangesFile (option_map (reached to)) files.old.items files.new.items name.now }
{
    if let Some(place) = place_of(files.as_slice(), name) {
        let file = &mut files[place];
        file.reach = file.reach.max(to);
    }
}

/// Puts bytes in the place of those of the file of that name, or adds such a file.
pub fn put(
    alloc: Global,
    files: &mut Vec<HeldFile>,
    name: &str,
    bytes: &[u8],
) -> Result<(), NoMemory>
    ensures ok { OnOk result
        (ChangesFile (added name.now bytes.now) files.old.items files.new.items name.now) }
    ensures err { OnErr result (files.new.items ≡ files.old.items) }
{
    let bytes = Text::new(alloc, bytes)?;
    match place_of(files.as_slice(), name) {
        Some(place) => {
            let file = &mut files[place];
            file.bytes = bytes;
        }
        None => {
            let name = Text::new(alloc, name.as_bytes())?;
            files.push(HeldFile {
                name,
                bytes,
                reach: 0,
                faults: 0,
            })?;
        }
    }
    Ok(())
}
