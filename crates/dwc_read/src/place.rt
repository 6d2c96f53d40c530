//! Where the next entry of a unit stands. (DWARF 4 and 5, section 2.3.)
ghost use Rattle.std.specs.Prelude.{◌≡◌, ◌+◌, ◌<◌, ◌^◌, suc, pred, length, option_map, if◌then◌else◌};
ghost use Rattle.dwc_dwarf.specs.Entries.{entry_place};
ghost use Rattle.dwc_read.specs.Places.{place_view};

use dwc_base::Cursor;

// Where the next entry of a unit stands, and its depth.
#[derive(Drop)]
pub struct Place<'d> {
    pub depth: u32,
    pub cursor: Cursor<'d>,
}

// Entries go on at a depth above the root's; at the root's they have ended. What stands there is changed in place, since a cursor
// that is moved costs more than its fields.
fn go_to<'d>(place: &mut Option<Place<'d>>, depth: u32, cursor: Cursor<'d>)
    ensures { option_map place_view place.new ≡ entry_place depth cursor.entry }
{
    if depth == 0 {
        *place = None;
        return;
    }
    match place {
        Some(here) => {
            here.depth = depth;
            here.cursor = cursor;
        }
        None => *place = Some(Place { depth, cursor }),
    }
}

// Goes to the place behind an entry.
pub fn pass_entry<'d>(
    place: &mut Option<Place<'d>>,
    depth: u32,
    has_children: bool,
    cursor: Cursor<'d>,
)
    requires { depth + 1 + length cursor.left < 2 ^ 32 }
    ensures { option_map place_view place.new ≡ entry_place (if has_children then suc depth else depth) cursor.entry }
{
    if has_children {
        go_to(place, depth + 1, cursor);
    } else {
        go_to(place, depth, cursor);
    }
}

// Goes to the place behind the end of a list of siblings.
pub fn pass_siblings<'d>(place: &mut Option<Place<'d>>, depth: u32, cursor: Cursor<'d>)
    ensures { option_map place_view place.new ≡ entry_place (pred depth) cursor.entry }
{
    go_to(place, depth.saturating_sub(1), cursor);
}
