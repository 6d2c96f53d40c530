//! What the definition of translation means.
ghost use Rattle.std.specs.Prelude.{◌≡◌, ℕ, List, None};
ghost use Rattle.dwc_base.specs.declared.records.OutputFor.{OutputFor};
ghost use Rattle.dwc_native.specs.Functions.{AddressMap, Function, functions_of};
ghost use Rattle.dwc_native.specs.Addends.{HaveAddends, TranslationsAreSaid};
ghost use Rattle.dwc_native.specs.Runs.{TranslationsAscend, RunsHaveAll};
ghost use Rattle.dwc_native.specs.ScopesKept.{AreNumbered, TranslationsKeepScopes};
ghost use Rattle.dwc_addr.specs.Transforms.{first_bad_map};

/// Says, and does nothing: where the address maps of functions are good, an interval is translated to intervals that are nonempty, ascending
/// and disjoint, and lie in the function that it begins in.
pub fn translations_ascend()
    ensures { (fs : List Function) → TranslationsAscend fs }
{}

/// Says, and does nothing: each wasm offset of a function with a good address map, from its start to its end, is one that some run has.
pub fn runs_have_all()
    ensures { (f : Function) → RunsHaveAll f }
{}

/// Says, and does nothing: where the address maps of functions are good and none with a symbol is too long, addends can say the offsets of
/// what addresses and intervals are translated to.
pub fn translations_are_said()
    ensures { (fs : List Function) → HaveAddends fs → TranslationsAreSaid fs }
{}

/// Says, and does nothing: what intervals are translated to keeps them as a scope. In a function with a symbol in which no two sources stand
/// at one native offset, it covers each byte whose source is from the begin of an interval that begins in the function to before that
/// interval's end, and none whose source is outside all intervals, their ends included. This holds where address maps are good and
/// functions with a symbol have numbers of their own, and so of the functions of a transform, whose address maps are all good. For a
/// debugger it covers exactly the bytes at which a source of an interval that begins in the function is shown, its end left out.
pub fn translations_keep_scopes()
    ensures keep { (fs : List Function) → TranslationsKeepScopes fs }
    ensures made { (output : OutputFor) (code_offset number : ℕ) (maps : List AddressMap) → first_bad_map code_offset 0 maps ≡ None → AreNumbered (functions_of output code_offset number maps) }
{}
