//! Files in memory: a path and its bytes each.
ghost use Rattle.std.specs.Prelude.{◌≡◌, ◌↔◌, map, drop, length, IsNone, IsTrue, IfSome, option_map, ◌<◌, string_bytes};
ghost use Rattle.std.specs.Ordering.{nat_cmp};
ghost use Rattle.std.specs.Cmp.Lexicographic.{slice_cmp};
ghost use Rattle.std.specs.FinMap as finite;
ghost use Rattle.dwc_cli.specs.Memory.{file_entry, left_of, at_front, GivesFront};

use crate::front::copy_front;
use crate::opened::Opened;

// The first file with a path, at its begin.
pub(crate) fn open_at(files: &[(String, Vec<u8>)], path: &str) -> Option<Opened>
    ensures left { left_of files.now result ≡ finite.find (slice_cmp nat_cmp) path.now (map file_entry files.now) }
    ensures none { IsNone result ↔ IsNone (left_of files.now result) }
{
    let file = file_at(files, path)?;
    Some(Opened { file, place: 0 })
}

// What a read gives: it copies what is left of the opened file to the front of the buffer, as far as there is room, and
// goes on behind it. None where no file is open.
pub(crate) fn give(
    files: &[(String, Vec<u8>)],
    opened: &mut Option<Opened>,
    buf: &mut [u8],
) -> Option<usize>
    ensures { GivesFront (left_of files.now opened.old) (left_of files.now opened.old) (left_of files.now opened.new) buf.new result }
{
    let from = (*opened)?;
    let (_, bytes) = files.get(from.file)?;
    let count = copy_front(from_place(bytes, from.place), buf);
    *opened = Some(Opened {
        file: from.file,
        place: from.place.saturating_add(count),
    });
    Some(count)
}

// The number of the first file with a path.
fn file_at(files: &[(String, Vec<u8>)], path: &str) -> Option<usize>
    ensures left { left_of files.now (option_map at_front result) ≡ finite.find (slice_cmp nat_cmp) path.now (map file_entry files.now) }
    ensures inside { IfSome result (λ file. file < length files.now) }
{
    for file in 0..files.len() {
        if has_path(&files[file], path) {
            return Some(file);
        }
    }
    None
}

fn has_path(file: &(String, Vec<u8>), path: &str) -> bool
    ensures { IsTrue result ↔ (string_bytes file.now.0 ≡ path.now) }
{
    file.0.as_str() == path
}

// The bytes from a place on, none past the end.
fn from_place(bytes: &[u8], place: usize) -> &[u8]
    ensures { result.now ≡ drop place bytes.now }
{
    if place <= bytes.len() {
        &bytes[place..]
    } else {
        &[]
    }
}
