//! The top call.
ghost use Rattle.std.specs.Prelude.{◌≡◌, ◌≢◌, ◌<◌, ◌≤◌, ◌↔◌, ◌∷◌, [], map, string_bytes};
ghost use Rattle.dwc_cli.specs.Calls.{ReadsFront, WritesUntilFailure};
ghost use Rattle.dwc_cli.specs.Inputs.{named_paths};
ghost use Rattle.dwc_cli.specs.RunMeanings.{RunMeans};
ghost use Rattle.dwc_cli.specs.RunStatus.{Rose, Succeeds, UsageCause, MissingCause, InputCauses, PrefixWritten, IsStatus, IsOneOf, ReadsAll, RunsWell, SaysOfRead, most_bytes};
ghost use Rattle.dwc_cli.specs.Failures.{failure_status, failure_message, IsOnOneLine};
ghost use Rattle.dwc_cli.specs.Answers.{Tells, Complains};

use crate::answer::sections_of;
use crate::failure::{Failure, complain};
use crate::printing::print_sections;
use crate::reading::read_input;
use crate::sink::Sink;
use crate::source::{Failed, Source};
use crate::status::Status;
use crate::words::read_words;
use std::alloc::Global;

/// Runs the program on the words behind its name: `MAP MODULE..`, the paths of a map file and of WebAssembly modules. The
/// sections of DWARF of the modules, rewritten for the code that the map tells of, are printed to `out`. Answers the number
/// of a [`Status`].
///
/// Each file is read whole, the map first and then the modules in order. For every status but [`Status::Done`] and [`Status::WriteFault`] nothing is
/// written to `out`, and for every status but [`Status::Done`] one line is written to `err`, whose faults change no status. It
/// has no further line feed, unless it names a path that has one.
pub fn run<S: Source, K: Sink, E: Sink>(
    alloc: Global,
    words: &[String],
    source: &mut S,
    out: &mut K,
    err: &mut E,
) -> u8
    // 0: the printed sections hold exactly the images of the input's carried line sequences.
    ensures carried { result ≡ 0 → Succeeds (S.files source.old) (map string_bytes words.now) (K.written out.old) (K.written out.new) }

    // And their expressions mean what those of the input do.
    ensures means { result ≡ 0 → RunMeans (S.files source.old) (map string_bytes words.now) (S.asked source.old) (S.asked source.new) (K.written out.old) (K.written out.new) }

    // Every other status has its cause, and want of memory, 9, may come at any time.
    ensures usage { UsageCause (map string_bytes words.now) result }
    ensures read_fault { result ≡ 3 → Rose (S.faults source.old) (S.faults source.new) }
    ensures too_long { result ≡ 4 → most_bytes < S.taken source.new }
    ensures longest { S.longest source.old ≤ most_bytes → ((result ≡ 4) ↔ (most_bytes < S.longest source.new)) }
    ensures taken { most_bytes < S.taken source.new → IsOneOf (2 ∷ 4 ∷ 9 ∷ []) result }
    ensures missing { MissingCause (S.files source.old) (map string_bytes words.now) result }
    ensures input { InputCauses (S.files source.old) (map string_bytes words.now) result }
    ensures write_fault { result ≡ 8 → Rose (K.faults out.old) (K.faults out.new) }
    ensures front { result ≡ 8 → PrefixWritten (S.files source.old) (map string_bytes words.now) (K.written out.old) (K.written out.new) }
    ensures status { IsStatus result }
    ensures complete { RunsWell (S.files source.old) (map string_bytes words.now) (S.faults source.old) (S.faults source.new) (K.faults out.old) (K.faults out.new) → IsOneOf (0 ∷ 9 ∷ []) result }

    // The files that the words name are opened, each once and in order, and read to their ends at most. A call that fails is the last one.
    ensures opened { ReadsFront result (named_paths (map string_bytes words.now)) (S.faults source.old) (S.faults source.new) (S.asked source.old) (S.asked source.new) }
    ensures ends { WritesUntilFailure result (K.faults out.old) (K.faults out.new) (K.asked out.old) (K.asked out.new) }

    // Whatever the source tells of its files, the same holds of the bytes that were read: of each file all up to a read that gave none.
    ensures all_read { ReadsAll (map string_bytes words.now) result (S.asked source.old) (S.asked source.new) }
    ensures of_read { SaysOfRead (map string_bytes words.now) result (S.asked source.old) (S.asked source.new) (K.written out.old) (K.written out.new) (S.faults source.old) (S.faults source.new) (K.faults out.old) (K.faults out.new) }

    // What is written besides.
    ensures silent { result ≢ 0 → result ≢ 8 → K.written out.new ≡ K.written out.old }
    ensures not_asked { result ≢ 0 → result ≢ 8 → K.asked out.new ≡ K.asked out.old }
    ensures said { result ≢ 0 → Complains (map string_bytes words.now) (S.asked source.new) result (E.faults err.old) (E.faults err.new) (E.written err.old) (E.written err.new) }
    ensures quiet { result ≡ 0 → E.written err.new ≡ E.written err.old }
    ensures err_not_asked { result ≡ 0 → E.asked err.new ≡ E.asked err.old }
{
    let Some(paths) = read_words(words) else {
        return refuse(err, &Failure::Usage);
    };
    let input = match read_input(alloc, source, &paths) {
        Ok(input) => input,
        Err(failure) => return refuse(err, &failure),
    };
    let sections = match sections_of(alloc, input) {
        Ok(sections) => sections,
        Err(failure) => return refuse(err, &failure),
    };
    match print_sections(out, &sections) {
        Ok(()) => Status::Done.code(),
        Err(Failed) => refuse(err, &Failure::WriteFault),
    }
}

// Says why a run does not end well, and answers its status. A fault of `err` changes nothing.
fn refuse<E: Sink>(err: &mut E, failure: &Failure<'_>) -> u8
    ensures status { result ≡ failure_status failure.now }
    ensures said { Tells (E.faults err.old) (E.faults err.new) (E.written err.old) (E.written err.new) (failure_message failure.now) }
    ensures one_line { IsOnOneLine failure.now }
{
    match complain(err, failure) {
        Ok(()) | Err(Failed) => failure.status().code(),
    }
}
