//! Reading the files that the words of a run name.
ghost use Rattle.std.specs.Prelude.{ℕ, List, [], ◌∷◌, ◌≡◌, ◌≤◌, ◌<◌, ◌↔◌, ◌++◌, length, map, option_map, string_bytes, Some, IfOk, IfErr, IfSome, Any};
ghost use Rattle.std.specs.List.{AllZip};
ghost use Rattle.dwc_cli.specs.Calls.{files_read, last_opened, openings, ReadsFewer, ReadsPaths, ReadsFront};
ghost use Rattle.dwc_cli.specs.RunStatus.{Rose, most_bytes};
ghost use Rattle.dwc_cli.specs.Inputs.{Input, all_files, all_paths};
ghost use Rattle.dwc_cli.specs.Edge.{IsReadFile, IsLongFile, paths_view};
ghost use Rattle.dwc_map.specs.MapFile.{map_in_bytes, IsMap};
ghost use Rattle.dwc_map.specs.MapViews.{map_file_view};
ghost use Rattle.dwc_cli.specs.Failures.{failure_status, fault_message, length_message};
ghost use Rattle.dwc_cli.specs.Answers.{status_of, message_of, IsInputOf, IsInput, IsReadingStatus};

use crate::failure::Failure;
use crate::input_files::InputFiles;
use crate::loading::{LoadError, load};
use crate::source::Source;
use crate::words::Paths;
use dwc_map::{MapFile, map_of_any};
use std::alloc::{AllocError, Global};

// Reads the map, and then the modules in order. The map's bytes end before a module is read.
pub(crate) fn read_input<'w, S: Source>(
    alloc: Global,
    source: &mut S,
    paths: &Paths<'w>,
) -> Result<InputFiles, Failure<'w>>
    ensures input { IfOk result (λ read. (input : Input) × IsInputOf read input × IsInput (S.files source.old) (paths_view paths.now) input × (files_read (S.asked source.new) ≡ files_read (S.asked source.old) ++ all_files input)) }
    ensures kinds { IfOk result (λ read. IfSome read.map_file (λ f. IsMap (map_file_view f))) }
    ensures too_long { (status_of result ≡ 4) ↔ (most_bytes < S.taken source.new) }
    ensures longest { S.longest source.old ≤ most_bytes → ((status_of result ≡ 4) ↔ (most_bytes < S.longest source.new)) }
    ensures long_file { status_of result ≡ 4 → Any (IsLongFile (S.files source.old)) (all_paths (paths_view paths.now)) }
    ensures read_fault { status_of result ≡ 3 → Rose (S.faults source.old) (S.faults source.new) }
    ensures status { IfErr result (λ failure. IsReadingStatus (failure_status failure)) }
    ensures fault_told { status_of result ≡ 3 → Any (λ path. message_of result ≡ fault_message path) (all_paths (paths_view paths.now)) }
    ensures length_told { status_of result ≡ 4 → Any (λ path. message_of result ≡ length_message path) (all_paths (paths_view paths.now)) }
    ensures asked { ReadsFront (status_of result) (all_paths (paths_view paths.now)) (S.faults source.old) (S.faults source.new) (S.asked source.old) (S.asked source.new) }
    ensures fault_named { status_of result ≡ 3 → option_map fault_message (last_opened (S.asked source.new)) ≡ Some (message_of result) }
    ensures length_named { status_of result ≡ 4 → option_map length_message (last_opened (S.asked source.new)) ≡ Some (message_of result) }
    ensures all_opened { IfOk result (λ _. openings (S.asked source.new) ≡ openings (S.asked source.old) ++ all_paths (paths_view paths.now)) }
    ensures cut { status_of result ≡ 4 → ReadsFewer (length (all_paths (paths_view paths.now))) (S.asked source.old) (S.asked source.new) }
    ensures later { S.faults source.old ≤ S.faults source.new }
{
    let map_file = read_map(alloc, source, paths.map_path)?;
    let modules = read_files(alloc, source, paths.module_paths)?;
    Ok(InputFiles { map_file, modules })
}

// Reads the map, and answers the map that its bytes are; None where they are none.
fn read_map<'w, S: Source>(
    alloc: Global,
    source: &mut S,
    path: &'w str,
) -> Result<Option<MapFile>, Failure<'w>>
    ensures file { IfOk result (λ read. (bytes : List ℕ) × IsReadFile (S.files source.old) path.now bytes × (option_map map_file_view read ≡ map_in_bytes bytes) × (files_read (S.asked source.new) ≡ files_read (S.asked source.old) ++ bytes ∷ [])) }
    ensures kinds { IfOk result (λ read. IfSome read (λ f. IsMap (map_file_view f))) }
    ensures too_long { (status_of result ≡ 4) ↔ (most_bytes < S.taken source.new) }
    ensures longest { S.longest source.old ≤ most_bytes → ((status_of result ≡ 4) ↔ (most_bytes < S.longest source.new)) }
    ensures long_file { status_of result ≡ 4 → IsLongFile (S.files source.old) path.now }
    ensures read_fault { status_of result ≡ 3 → Rose (S.faults source.old) (S.faults source.new) }
    ensures status { IfErr result (λ failure. IsReadingStatus (failure_status failure)) }
    ensures fault_told { status_of result ≡ 3 → message_of result ≡ fault_message path.now }
    ensures length_told { status_of result ≡ 4 → message_of result ≡ length_message path.now }
    ensures asked { ReadsPaths (status_of result) (path.now ∷ []) (S.faults source.old) (S.faults source.new) (S.asked source.old) (S.asked source.new) }
    ensures last { last_opened (S.asked source.new) ≡ Some path.now }
    ensures files { S.files source.new ≡ S.files source.old }
    ensures cut { status_of result ≡ 4 → files_read (S.asked source.new) ≡ files_read (S.asked source.old) }
    ensures later { S.faults source.old ≤ S.faults source.new }
{
    let bytes = read_file(alloc, source, path)?;
    Ok(map_from(alloc, bytes)?)
}

// The map that some bytes are, which end with this call; None where they are none.
fn map_from(alloc: Global, bytes: Vec<u8>) -> Result<Option<MapFile>, AllocError>
    ensures value { IfOk result (λ read. option_map map_file_view read ≡ map_in_bytes bytes.items) }
    ensures kinds { IfOk result (λ read. IfSome read (λ f. IsMap (map_file_view f))) }
{
    map_of_any(alloc, &bytes)
}

// Reads some files in order.
fn read_files<'w, S: Source>(
    alloc: Global,
    source: &mut S,
    paths: &'w [String],
) -> Result<Vec<Vec<u8>>, Failure<'w>>
    requires { S.taken source.old ≤ most_bytes }
    ensures files_read { IfOk result (λ files. AllZip (IsReadFile (S.files source.old)) (map string_bytes paths.now) (map (λ m. m.items) files.items)) }
    ensures too_long { (status_of result ≡ 4) ↔ (most_bytes < S.taken source.new) }
    ensures longest { S.longest source.old ≤ most_bytes → ((status_of result ≡ 4) ↔ (most_bytes < S.longest source.new)) }
    ensures long_file { status_of result ≡ 4 → Any (IsLongFile (S.files source.old)) (map string_bytes paths.now) }
    ensures read_fault { status_of result ≡ 3 → Rose (S.faults source.old) (S.faults source.new) }
    ensures status { IfErr result (λ failure. IsReadingStatus (failure_status failure)) }
    ensures fault_told { status_of result ≡ 3 → Any (λ path. message_of result ≡ fault_message path) (map string_bytes paths.now) }
    ensures length_told { status_of result ≡ 4 → Any (λ path. message_of result ≡ length_message path) (map string_bytes paths.now) }
    ensures asked { ReadsFront (status_of result) (map string_bytes paths.now) (S.faults source.old) (S.faults source.new) (S.asked source.old) (S.asked source.new) }
    ensures fault_named { status_of result ≡ 3 → option_map fault_message (last_opened (S.asked source.new)) ≡ Some (message_of result) }
    ensures length_named { status_of result ≡ 4 → option_map length_message (last_opened (S.asked source.new)) ≡ Some (message_of result) }
    ensures whole { IfOk result (λ files. files_read (S.asked source.new) ≡ files_read (S.asked source.old) ++ map (λ m. m.items) files.items) }
    ensures all_opened { IfOk result (λ _. openings (S.asked source.new) ≡ openings (S.asked source.old) ++ map string_bytes paths.now) }
    ensures cut { status_of result ≡ 4 → ReadsFewer (length (map string_bytes paths.now)) (S.asked source.old) (S.asked source.new) }
    ensures later { S.faults source.old ≤ S.faults source.new }
{
    let mut files = Vec::with_capacity(alloc, paths.len())?;
    for path in paths {
        let bytes = read_file(alloc, source, path.as_str())?;
        files.push(bytes)?;
    }
    Ok(files)
}

fn read_file<'w, S: Source>(
    alloc: Global,
    source: &mut S,
    path: &'w str,
) -> Result<Vec<u8>, Failure<'w>>
    ensures file { IfOk result (λ bytes. IsReadFile (S.files source.old) path.now bytes.items) }
    ensures too_long { (status_of result ≡ 4) ↔ (most_bytes < S.taken source.new) }
    ensures longest { S.longest source.old ≤ most_bytes → ((status_of result ≡ 4) ↔ (most_bytes < S.longest source.new)) }
    ensures long_file { status_of result ≡ 4 → IsLongFile (S.files source.old) path.now }
    ensures read_fault { status_of result ≡ 3 → Rose (S.faults source.old) (S.faults source.new) }
    ensures status { IfErr result (λ failure. IsReadingStatus (failure_status failure)) }
    ensures fault_told { status_of result ≡ 3 → message_of result ≡ fault_message path.now }
    ensures length_told { status_of result ≡ 4 → message_of result ≡ length_message path.now }
    ensures asked { ReadsPaths (status_of result) (path.now ∷ []) (S.faults source.old) (S.faults source.new) (S.asked source.old) (S.asked source.new) }
    ensures last { last_opened (S.asked source.new) ≡ Some path.now }
    ensures files { S.files source.new ≡ S.files source.old }
    ensures whole { IfOk result (λ bytes. files_read (S.asked source.new) ≡ files_read (S.asked source.old) ++ bytes.items ∷ []) }
    ensures cut { status_of result ≡ 4 → files_read (S.asked source.new) ≡ files_read (S.asked source.old) }
    ensures later { S.faults source.old ≤ S.faults source.new }
{
    match load(alloc, source, path) {
        Ok(bytes) => Ok(bytes),
        Err(LoadError::Read) => Err(Failure::ReadFault { path }),
        Err(LoadError::TooLong) => Err(Failure::TooLong { path }),
        Err(LoadError::OutOfMemory) => Err(Failure::OutOfMemory),
    }
}
