//! What is in force at an entry: the scope, the frame and the frame base of the nearest of it and its ancestors that gives one. (DWARF 4
//! and 5, sections 2.6 and 3.3.5.)
ghost use Rattle.std.specs.Prelude.{◌≡◌, ◌==◌, pos, true, IfErr, IfOk, IfSome, IsSome, OnOk, option_copied, option_map};
ghost use Rattle.dwc_dwarf.specs.Lists.{list_source};
ghost use Rattle.dwc_rules.specs.RangeAttributes.{begun_function};
ghost use Rattle.dwc_rules.specs.Scopes.{left_for, top_at, top_of};
ghost use Rattle.dwc_addr.specs.Transforms.{function_view};
ghost use Rattle.dwc_read.specs.EntriesSeen.{entry_view};
ghost use Rattle.dwc_source.specs.declared.error.CloneError.TheVariants.{OutOfMemory};
ghost use Rattle.dwc_extents.specs.CodeNames.{have_code_name};
ghost use Rattle.dwc_extents.specs.BoundRefusals.{IsSound};
ghost use Rattle.dwc_extents.specs.Lineages.{Stacks, given_on, no_stacks, own_scope, stacks_left, stacks_with, with_entry};

use crate::InheritedAttr;
use crate::given::{base_given, scope_given};
use crate::wasm_intervals::Scope;
use dwc_addr::FunctionMap;
use dwc_base::constants::DW_TAG_subprogram;
use dwc_expr::CompiledExpression;
use dwc_read::Entry;
use dwc_source::{CloneError, CloneSource};
use std::alloc::{AllocError, Global};
use std::marker::Model;

/// What the entries of a unit gave to those below them, in a walk over its kept entries in file order.
#[derive(Drop)]
pub struct Lineage {
    scopes: InheritedAttr<Scope>,
    // Functions by their numbers among those of all modules.
    frames: InheritedAttr<usize>,
    bases: InheritedAttr<CompiledExpression>,
}

impl Model for Lineage {
    ghost use Rattle.std.specs.Prelude.{map};
    ghost use Rattle.dwc_extents.specs.CodeNames.{have_code_name};
    ghost use Rattle.dwc_extents.specs.Lineages.{Stacks};

    ghost Value = { Stacks };

    ghost view = { λ l. record { scopes = map (λ g. (g.0, g.1.items)) l.scopes; frames = l.frames; bases = l.bases } };
}

// The number of a function among those of all modules.
fn number_of(function: Option<&FunctionMap<'_>>) -> Option<usize>
    requires { IfSome function (λ f. IsSome f.now.symbol) }
    ensures { result ≡ option_map (λ f. f.number) (option_map (λ f. function_view f.now) function.entry) }
{
    function?.symbol
}

// Whether an entry is the root of its unit.
fn is_root(entry: &Entry<'_>) -> bool
    ensures { result ≡ ((entry_view entry.now).depth == 0) }
{
    entry.depth == 0
}

// Whether an entry gives nothing, as it begins in no function and says nothing of its code.
fn gives_nothing(
    source: &CloneSource<'_, '_>,
    entry: &Entry<'_>,
    function: Option<&FunctionMap<'_>>,
    speaks: bool,
) -> bool
    requires speaks { speaks ≡ have_code_name (entry_view entry.now).attributes }
    requires begun { option_map (λ f. function_view f.now) function ≡ begun_function (list_source source.now.unit.now.sections source.now.unit.now.header) source.now.transform.now (entry_view entry.now) }
    ensures { result ≡ true → (old : Stacks) → with_entry (list_source source.now.unit.now.sections source.now.unit.now.header) source.now.transform.now (entry_view entry.now) old ≡ stacks_left (entry_view entry.now).depth old }
{
    match function {
        Some(_) => false,
        None => !speaks,
    }
}

// Drops from the top of a stack what was given at the depth of an entry or deeper.
fn leave_stack<T: Drop>(stack: &mut InheritedAttr<T>, entry: &Entry<'_>)
    ensures { stack.new ≡ left_for (pos (entry_view entry.now).depth) stack.old }
{
    stack.update(entry.depth);
}

// Puts what an entry gives on top of a stack, if it gives something.
fn push_given<T: Drop>(
    stack: &mut InheritedAttr<T>,
    entry: &Entry<'_>,
    given: Option<T>,
) -> Result<(), AllocError>
    ensures { OnOk result (stack.new ≡ given_on (entry_view entry.now).depth given stack.old) }
{
    match given {
        Some(value) => stack.push(entry.depth, value),
        None => Ok(()),
    }
}

// What is on top of a stack, where it was given at the depth of an entry.
fn top_for<'s, T>(stack: &'s InheritedAttr<T>, entry: &Entry<'_>) -> Option<&'s T>
    ensures { option_copied result ≡ top_at (pos (entry_view entry.now).depth) stack.now }
{
    stack.top_with_depth(entry.depth)
}

impl Lineage {
    /// Nothing is in force.
    pub fn new(alloc: Global) -> Lineage
        ensures { result ≡ no_stacks }
    {
        Lineage {
            scopes: InheritedAttr::new(alloc),
            frames: InheritedAttr::new(alloc),
            bases: InheritedAttr::new(alloc),
        }
    }

    // Leaves what the ancestors of an entry gave.
    fn leave(&mut self, entry: &Entry<'_>)
        ensures { self.new ≡ stacks_left (entry_view entry.now).depth self.old }
    {
        leave_stack(&mut self.scopes, entry);
        leave_stack(&mut self.frames, entry);
        leave_stack(&mut self.bases, entry);
    }

    // Adds what an entry gives.
    fn push(
        &mut self,
        entry: &Entry<'_>,
        scope: Option<Scope>,
        frame: Option<usize>,
        base: Option<CompiledExpression>,
    ) -> Result<(), AllocError>
        ensures { OnOk result (self.new ≡ stacks_with (entry_view entry.now).depth (option_map (λ is. is.items) scope) frame base self.old) }
    {
        push_given(&mut self.scopes, entry, scope)?;
        push_given(&mut self.frames, entry, frame)?;
        push_given(&mut self.bases, entry, base)
    }

    /// Enters an entry, the next in file order, of those that are walked: what is in force is then what is in force at it. The root gives
    /// nothing. `speaks` tells whether the entry says something of its code. Answers whether it is known that nothing is refused of the
    /// entry's extent.
    ///
    /// # Errors
    /// `OutOfMemory` for want of memory. Nothing is said of what is in force then.
    pub fn enter(
        &mut self,
        alloc: Global,
        source: &CloneSource<'_, '_>,
        entry: &Entry<'_>,
        function: Option<&FunctionMap<'_>>,
        speaks: bool,
    ) -> Result<bool, CloneError>
        requires speaks { speaks ≡ have_code_name (entry_view entry.now).attributes }
        requires symbol { IfSome function (λ f. IsSome f.now.symbol) }
        requires begun { option_map (λ f. function_view f.now) function ≡ begun_function (list_source source.now.unit.now.sections source.now.unit.now.header) source.now.transform.now (entry_view entry.now) }
        ensures entered { OnOk result (self.new ≡ with_entry (list_source source.now.unit.now.sections source.now.unit.now.header) source.now.transform.now (entry_view entry.now) self.old) }
        ensures sound { IfOk result (λ is_sound. is_sound ≡ true → IsSound (list_source source.now.unit.now.sections source.now.unit.now.header) (entry_view entry.now)) }
        ensures memory { IfErr result (λ e. e ≡ OutOfMemory) }
    {
        self.leave(entry);
        if is_root(entry) {
            return Ok(false);
        }
        if gives_nothing(source, entry, function, speaks) {
            return Ok(false);
        }
        let (scope, is_sound) = scope_given(alloc, source, entry, function)?;
        let base = base_given(alloc, source, entry)?;
        self.push(entry, scope, number_of(function), base)?;
        Ok(is_sound)
    }

    /// The scope that an entry itself gave, the last that was entered, where it is no subprogram.
    pub fn own_scope(&self, entry: &Entry<'_>) -> Option<&[(u64, u64)]>
        ensures { option_map (λ scope. scope.now) result ≡ own_scope (entry_view entry.now) self.now }
    {
        if entry.tag == DW_TAG_subprogram {
            return None;
        }
        match top_for(&self.scopes, entry) {
            Some(scope) => Some(scope.as_slice()),
            None => None,
        }
    }

    /// The scope in force, as intervals of wasm offsets.
    pub(crate) fn scope(&self) -> Option<&[(u64, u64)]>
        ensures { option_map (λ scope. scope.now) result ≡ top_of self.now.scopes }
    {
        match self.scopes.top() {
            Some(scope) => Some(scope.as_slice()),
            None => None,
        }
    }

    /// The function whose frame is in force, by its number among those of all modules.
    pub(crate) fn frame(&self) -> Option<usize>
        ensures { result ≡ top_of self.now.frames }
    {
        self.frames.top().copied()
    }

    /// The frame base in force.
    pub(crate) fn base(&self) -> Option<&CompiledExpression>
        ensures { option_map (λ base. base.now) result ≡ top_of self.now.bases }
    {
        self.bases.top()
    }
}
