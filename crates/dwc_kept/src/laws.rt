//! What the definition of the kept entries means.
ghost use Rattle.std.specs.Prelude.{ℕ, List, Bool};
ghost use Rattle.dwc_rules.specs.Kept.{Placed};
ghost use Rattle.dwc_rules.specs.KeptEntries.{KeptAreLeast};
ghost use Rattle.dwc_kept.specs.EntryGraphs.{Node, MarksAreKept, OffsetsAreKept};

/// Says, and does nothing: of entries at offsets of their own, those that are kept from some of them on are the least set that holds
/// these and is closed under what its entries keep.
pub fn kept_are_least()
    ensures { (es required : List Placed) → KeptAreLeast es required }
{}

/// Says, and does nothing: of entries at offsets of their own and their graph, the least marks from those of the required entries on are
/// those of the entries that are kept with these.
pub fn marks_are_kept()
    ensures { (es : List Placed) (ns : List Node) (required : List Placed) (flags marks : List Bool) → MarksAreKept es ns required flags marks }
{}

/// Says, and does nothing: of entries at offsets of their own and their graph, the kept offsets are those of the entries that are kept with
/// the required ones, in file order.
pub fn offsets_are_kept()
    ensures { (es : List Placed) (ns : List Node) (required : List Placed) (flags : List Bool) (offsets : List ℕ) → OffsetsAreKept es ns required flags offsets }
{}
