//! What is known of entries that were cloned, in a walk over the kept entries of a unit in file order.
ghost use Rattle.dwc_rules.specs.Clones.{UnitSource};
ghost use Rattle.dwc_isa.specs.Registers.{Registers};
ghost use Rattle.dwc_source.specs.declared.source.CloneSource.{CloneSource};
ghost use Rattle.std.specs.Prelude.{◌≡◌, ℕ, List, []};
ghost use Rattle.dwc_types.specs.KnownNames.{KnowsNames};
ghost use Rattle.dwc_extents.specs.Lineages.{no_stacks};
ghost use Rattle.dwc_types.specs.TypeSteps.{AreNames};

use crate::SubprogramContext;
use crate::wrapper::OpenWrapper;
use dwc_extents::{InheritedAttr, Lineage};
use dwc_types::TypeNames;
use dwc_unit::UnitEntryId;
use std::alloc::Global;

/// What is known of the entries that were cloned.
#[derive(Drop)]
pub(crate) struct Walk {
    /// What they gave to those below them.
    pub lineage: Lineage,
    /// What the functions among them tell of their parameters.
    pub contexts: InheritedAttr<SubprogramContext>,
    /// The last of them and those that it stands below, by their depths.
    pub parents: Vec<UnitEntryId>,
    /// The wrappers whose types are still to be added, the innermost last.
    pub opened: Vec<OpenWrapper>,
    /// The names of wrappers that were made, and the types that were read for them.
    pub names: TypeNames,
}

/// No entry was cloned.
pub(crate) fn begin_walk(alloc: Global) -> Walk
    ensures lineage { result.lineage ≡ no_stacks }
    ensures contexts { result.contexts ≡ [] }
    ensures parents { result.parents.items ≡ [] }
    ensures wrappers { result.opened.items ≡ [] }
    ensures plain { AreNames result.names }
    ensures names { (source : CloneSource) (s : UnitSource) (texts : List (List ℕ)) → KnowsNames source s texts result.names }
{
    Walk {
        lineage: Lineage::new(alloc),
        contexts: InheritedAttr::new(alloc),
        parents: Vec::new(alloc),
        opened: Vec::new(alloc),
        names: TypeNames::new(alloc),
    }
}
