//! Numbers of the forms.
ghost use Rattle.std.specs.Prelude.{◌≡◌, ◌∷◌, []};
ghost use Rattle.dwc_base.specs.Cursors.{Gives};
ghost use Rattle.dwc_base.specs.Reading.{number_at, number as spelled};
ghost use Rattle.dwc_dwarf.specs.Values.{sized_number_at};
ghost use Rattle.dwc_read.specs.Sizes.{size_view};

use dwc_base::fields::number;
use dwc_base::{Cursor, Endian, Flaw};

// How long a number in a value is: so many bytes, or of variable length.
#[derive(Clone, Copy)]
pub enum Size {
    One,
    Two,
    Three,
    Four,
    Eight,
    Variable,
}

// A number of three bytes.
fn three(cursor: &mut Cursor<'_>) -> Result<u32, Flaw>
    ensures { Gives (λ x. x) (number_at 3 cursor.old) cursor.new result }
{
    let order = cursor.order();
    let field = cursor.take(3)?;
    Ok(three_bytes(order, field[0], field[1], field[2]))
}

// The number that three bytes spell.
fn three_bytes(order: Endian, first: u8, second: u8, third: u8) -> u32
    ensures { result ≡ spelled order (first ∷ second ∷ third ∷ []) }
{
    match order {
        Endian::Little => u32::from_le_bytes([first, second, third, 0]),
        Endian::Big => u32::from_be_bytes([0, first, second, third]),
    }
}

// A number in a value.
#[tactic(auto, unfolding(dwc_dwarf::specs::Values::sized_number_at))]
pub fn sized_number(size: Size, cursor: &mut Cursor<'_>) -> Result<u64, Flaw>
    ensures { Gives (λ x. x) (sized_number_at (size_view size) cursor.old) cursor.new result }
{
    match size {
        Size::One => Ok(number(1, cursor)?),
        Size::Two => Ok(number(2, cursor)?),
        Size::Three => {
            let value = three(cursor)?;
            Ok(u64::from(value))
        }
        Size::Four => Ok(number(4, cursor)?),
        Size::Eight => Ok(number(8, cursor)?),
        Size::Variable => Ok(cursor.uleb()?),
    }
}
