//! The words of the command line.
ghost use Rattle.std.specs.Prelude.{◌≡◌, map, string_bytes};
ghost use Rattle.std.specs.Option.{option_map};
ghost use Rattle.std.specs.List.{list_all};
ghost use Rattle.dwc_cli.specs.Inputs.{is_path, paths_of};
ghost use Rattle.dwc_cli.specs.Edge.{paths_view};

/// The files that the words of a run name.
#[derive(Clone, Copy)]
pub(crate) struct Paths<'w> {
    /// The map of the functions, a JSON file.
    pub(crate) map_path: &'w str,
    /// The WebAssembly modules, one at least.
    pub(crate) module_paths: &'w [String],
}

/// The paths that the words are, or none: there are two words at least, and none is empty or begins with `-`.
pub(crate) fn read_words(words: &[String]) -> Option<Paths<'_>>
    ensures { option_map paths_view result ≡ paths_of (map string_bytes words.now) }
{
    if words.len() < 2 || !are_paths(words) {
        return None;
    }
    let (map_path, module_paths) = words.split_first()?;
    Some(Paths {
        map_path: map_path.as_str(),
        module_paths,
    })
}

fn are_paths(words: &[String]) -> bool
    ensures { result ≡ list_all is_path (map string_bytes words.now) }
{
    for word in words {
        if !is_path(word.as_str()) {
            return false;
        }
    }
    true
}

fn is_path(word: &str) -> bool
    ensures { result ≡ is_path word.now }
{
    match word.as_bytes() {
        [] => false,
        [first, ..] => *first != b'-',
    }
}
