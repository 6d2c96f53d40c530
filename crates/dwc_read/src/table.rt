//! An abbreviation table, its declarations found by their codes.
ghost use Rattle.std.specs.Prelude.{◌≡◌, drop, map, option_map};
ghost use Rattle.dwc_base.specs.Abbreviations.{declaration_of};
ghost use Rattle.dwc_read.specs.Tables.{declaration_view};

use crate::chain::{Chain, item};
use crate::declaration::Declaration;
use std::marker::Model;
use std::rc::Rc;

// An abbreviation table: the declarations of a chain from a place on. So tables that end alike share what they have in common.
#[derive(Drop)]
pub struct Table {
    chain: Rc<Chain>,
    start: usize,
}

impl Model for Table {
    ghost use Rattle.std.specs.Prelude.{List, drop};
    ghost use Rattle.dwc_base.specs.Abbreviations as table;
    ghost use Rattle.dwc_read.specs.Codes.{table_code};

    ghost Value = { List table.Declaration };

    ghost coded = { table_code };

    ghost view = { λ t. drop t.start t.chain.value };
}

impl Table {
    // The table of a chain's declarations from a place on.
    pub fn new(chain: Rc<Chain>, start: usize) -> Table
        ensures { result ≡ drop start chain.value }
    {
        Table { chain, start }
    }

    // The declaration of a code: of two, the first.
    pub fn declaration(&self, code: u64) -> Option<&Declaration>
        ensures { option_map (λ d. declaration_view d.now) result ≡ declaration_of code self.now }
    {
        if self.start == 0 {
            return self.chain.declaration(code);
        }
        found_behind(&self.chain, self.start, code)
    }

    // The declarations in their order.
    pub fn declarations(&self) -> &[Declaration]
        ensures { map declaration_view result.now ≡ self.now }
    {
        behind(self.chain.declarations(), self.start)
    }
}

// The declarations from a place on.
fn behind(declarations: &[Declaration], start: usize) -> &[Declaration]
    ensures { map declaration_view result.now ≡ drop start (map declaration_view declarations.now) }
{
    if start > declarations.len() {
        return &[];
    }
    let (_, behind) = declarations.split_at(start);
    behind
}

// The declaration of a code in a chain from a place on. Only where the first of all stands before the place are those behind it gone
// through.
#[inline(never)]
fn found_behind(chain: &Chain, start: usize, code: u64) -> Option<&Declaration>
    ensures { option_map (λ d. declaration_view d.now) result ≡ declaration_of code (drop start chain.now) }
{
    if let Some(place) = chain.place(code)
        && place >= start
    {
        return item(chain.declarations(), place);
    }
    first_of(behind(chain.declarations(), start), code)
}

// The first declaration of a code.
fn first_of(declarations: &[Declaration], code: u64) -> Option<&Declaration>
    ensures { option_map (λ d. declaration_view d.now) result ≡ declaration_of code (map declaration_view declarations.now) }
{
    for declaration in declarations {
        if declaration.code == code {
            return Some(declaration);
        }
    }
    None
}
