//! Declarations of abbreviations that stand one behind another, found by their codes.
ghost use Rattle.std.specs.Prelude.{◌≡◌, ℕ, map, option_map, slice_get, Some, IfOk, IfSome};
ghost use Rattle.std.specs.Ordering.{nat_cmp};
ghost use Rattle.std.specs.BTreeMap.{get};
ghost use Rattle.dwc_base.specs.Abbreviations.{declaration_of};
ghost use Rattle.dwc_read.specs.Codes.{counts_from, place_from};
ghost use Rattle.dwc_read.specs.Tables.{declaration_view};

use crate::declaration::Declaration;
use std::alloc::{AllocError, Global};
use std::collections::BTreeMap;
use std::marker::Model;

// Declarations that stand one behind another. Where the codes count from 1, as compilers give them, a code is a place; else `places`
// has the first place of each code.
#[derive(Drop)]
pub struct Chain {
    declarations: Vec<Declaration>,
    counted: bool,
    places: BTreeMap<u64, usize>,
}

impl Model for Chain {
    ghost use Rattle.std.specs.Prelude.{List, map};
    ghost use Rattle.std.specs.Ordering.{nat_cmp};
    ghost use Rattle.std.specs.BTreeMap.{get};
    ghost use Rattle.dwc_base.specs.Abbreviations as table;
    ghost use Rattle.dwc_read.specs.Tables.{declaration_view};
    ghost use Rattle.dwc_read.specs.Codes.{table_code, IsIndexed};

    ghost Value = { List table.Declaration };

    ghost coded = { table_code };

    ghost view = { λ t. map declaration_view t.declarations.items };

    ghost invariant = { λ t. IsIndexed t.counted (map declaration_view t.declarations.items) (get nat_cmp t.places) };
}

impl Chain {
    // The chain of some declarations.
    pub fn new(alloc: Global, declarations: Vec<Declaration>) -> Result<Chain, AllocError>
        ensures { IfOk result (λ t. t ≡ map declaration_view declarations.items) }
    {
        let counted = is_counted(&declarations);
        let places = if counted {
            BTreeMap::new(alloc)
        } else {
            places_of(alloc, &declarations)?
        };
        Ok(Chain {
            declarations,
            counted,
            places,
        })
    }

    // The declaration of a code: of two, the first.
    pub fn declaration(&self, code: u64) -> Option<&Declaration>
        ensures { option_map (λ d. declaration_view d.now) result ≡ declaration_of code self.now }
    {
        if !self.counted {
            let place = self.places.get(&code)?;
            return item(&self.declarations, *place);
        }
        if code == 0 {
            return None;
        }
        item(&self.declarations, code as usize - 1)
    }

    // The place of the first declaration of a code, if there is one.
    pub fn place(&self, code: u64) -> Option<usize>
        ensures { IfSome result (λ place. place_from 0 self.now code ≡ Some place) }
    {
        if !self.counted {
            let place = self.places.get(&code)?;
            return Some(*place);
        }
        if code == 0 {
            return None;
        }
        if code > self.declarations.len() as u64 {
            return None;
        }
        Some(code as usize - 1)
    }

    // The declarations in their order.
    pub fn declarations(&self) -> &[Declaration]
        ensures { map declaration_view result.now ≡ self.now }
    {
        self.declarations.as_slice()
    }
}

// The declaration at a place.
pub fn item(declarations: &[Declaration], place: usize) -> Option<&Declaration>
    ensures { option_map (λ d. declaration_view d.now) result ≡ slice_get (map declaration_view declarations.now) place }
{
    declarations.get(place)
}

// Whether the codes count from 1.
fn is_counted(declarations: &[Declaration]) -> bool
    ensures { result ≡ counts_from 1 (map declaration_view declarations.now) }
{
    for (i, declaration) in declarations.iter().enumerate() {
        if declaration.code != i as u64 + 1 {
            return false;
        }
    }
    true
}

// The first place of each code.
fn places_of(
    alloc: Global,
    declarations: &[Declaration],
) -> Result<BTreeMap<u64, usize>, AllocError>
    ensures { IfOk result (λ m. (code : ℕ) → get nat_cmp m code ≡ place_from 0 (map declaration_view declarations.now) code) }
{
    let mut places = BTreeMap::new(alloc);
    let mut k = declarations.len();
    while k > 0 {
        k -= 1;
        places.insert(declarations[k].code, k)?;
    }
    Ok(places)
}
