//! The path of the unit that stands for functions without debugging information, its directory and its name.
ghost use Rattle.std.specs.Prelude.{◌≡◌, ◌+◌, ◌++◌, ◌==◌, Some, length, not, codes, option_map, IfOk};
ghost use Rattle.std.specs.List.{list_any, suffix_len};
ghost use Rattle.dwc_carried.specs.UnitPaths.{without_zero, numbered_path, is_slash, cut_path, path_name, before_name, or_root, directory_before, path_directory, is_file_name};
ghost use Rattle.dwc_carry.specs.UnitPathParts.{IsNamedPath, IsUnitPath};

use dwc_base::ModuleTranslation;
use std::alloc::{AllocError, Global};

const SLASH: u8 = 0x2F;

/// The path of the unit.
#[derive(Drop)]
pub struct UnitPath {
    pub path: Vec<u8>,
    /// Whether it is made of the number of the next generated name, as nothing names the module.
    pub is_generated: bool,
}

// Whether some byte is zero.
fn has_zero(bytes: &[u8]) -> bool
    ensures { result ≡ list_any (λ b. b == 0) bytes.now }
{
    bytes.iter().any(|byte| *byte == 0)
}

/// The bytes of a text, if it holds no zero byte.
pub(crate) fn without_zero(text: &str) -> Option<&[u8]>
    ensures { option_map (λ bytes. bytes.now) result ≡ without_zero (Some text.now) }
{
    let bytes = text.as_bytes();
    if has_zero(bytes) { None } else { Some(bytes) }
}

/// Two texts one behind the other.
pub(crate) fn joined(alloc: Global, front: &[u8], back: &[u8]) -> Result<Vec<u8>, AllocError>
    ensures { IfOk result (λ bytes. bytes.items ≡ front.now ++ back.now) }
{
    let mut bytes = Vec::new(alloc);
    bytes.extend_from_slice(front)?;
    bytes.extend_from_slice(back)?;
    Ok(bytes)
}

// The path that names a module: the one that is given, else one made of the name that its file tells.
fn named_path(alloc: Global, translation: &ModuleTranslation) -> Result<Option<Vec<u8>>, AllocError>
    ensures { IfOk result (IsNamedPath translation.now) }
{
    if let Some(given) = translation.path {
        if let Some(path) = without_zero(given) {
            return Ok(Some(joined(alloc, path, b"")?));
        }
    }
    if let Some(told) = translation.module_name {
        if let Some(name) = without_zero(told) {
            return Ok(Some(joined(alloc, b"/<wasm-module>/", name)?));
        }
    }
    Ok(None)
}

// A path made of a number.
fn numbered_path(alloc: Global, number: u64) -> Result<Vec<u8>, AllocError>
    ensures { IfOk result (λ path. path.items ≡ numbered_path number) }
{
    let path = format!(in alloc; "/<wasm-module>/<gen-{number}>.wasm")?;
    Ok(path.into_bytes())
}

/// The path of the unit of a module; where nothing names that, it is made of the number of the next generated name.
pub fn unit_path(
    alloc: Global,
    translation: &ModuleTranslation,
    next_id: u64,
) -> Result<UnitPath, AllocError>
    ensures { IfOk result (IsUnitPath translation.now next_id) }
{
    match named_path(alloc, translation)? {
        Some(path) => Ok(UnitPath {
            path,
            is_generated: false,
        }),
        None => {
            let path = numbered_path(alloc, next_id)?;
            Ok(UnitPath {
                path,
                is_generated: true,
            })
        }
    }
}

// How many bytes stand before the slashes at the end.
fn cut_length(path: &[u8]) -> usize
    ensures { result + suffix_len is_slash path.now ≡ length path.now }
{
    let mut end = path.len();
    while end > 0 && path[end - 1] == SLASH {
        end -= 1;
    }
    end
}

// A path without slashes at its end.
fn cut_path(path: &[u8]) -> &[u8]
    ensures { result.now ≡ cut_path path.now }
{
    let (front, _) = path.split_at(cut_length(path));
    front
}

// The place behind the last slash, or 0.
fn name_place(path: &[u8]) -> usize
    ensures { result + suffix_len (λ b. not (is_slash b)) path.now ≡ length path.now }
{
    let mut place = path.len();
    while place > 0 && path[place - 1] != SLASH {
        place -= 1;
    }
    place
}

/// The name that a path ends with: what follows its last slash, but for slashes at the end.
pub fn path_name(path: &[u8]) -> &[u8]
    ensures { result.now ≡ path_name path.now }
{
    let cut = cut_path(path);
    let (_, name) = cut.split_at(name_place(cut));
    name
}

// A path, or the root where it is empty.
fn or_root(path: &[u8]) -> &[u8]
    ensures { result.now ≡ or_root path.now }
{
    if path.is_empty() {
        return b"/";
    }
    path
}

// The directory of what stands before a name, none where nothing does.
fn directory_before(before: &[u8]) -> &[u8]
    ensures { result.now ≡ directory_before before.now }
{
    if before.is_empty() {
        return before;
    }
    or_root(cut_path(before))
}

// What stands before the name that a path ends with.
fn before_name(path: &[u8]) -> &[u8]
    ensures { result.now ≡ before_name path.now }
{
    let cut = cut_path(path);
    let (before, _) = cut.split_at(name_place(cut));
    before
}

/// The directory of a path: what stands before its name, without slashes at the end; the root where only slashes stand there.
pub fn path_directory(path: &[u8]) -> &[u8]
    ensures { result.now ≡ path_directory path.now }
{
    directory_before(before_name(path))
}

/// Whether a name names a file: it is not empty, and neither `.` nor `..`.
pub fn is_file_name(name: &[u8]) -> bool
    ensures { result ≡ is_file_name name.now }
{
    !name.is_empty() && name != b".".as_slice() && name != b"..".as_slice()
}
