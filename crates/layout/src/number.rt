// Numbers as a page has them, in decimal.
ghost use Rattle.std.specs.Prelude.{decimal, IsTrue, ◌↔◌};
ghost use Rattle.layout.specs.Reading.{Reads};
ghost use Rattle.layout.specs.Numbers.{Small, Shaped, OneWayToWrite};

// The most digits of a number on a page.
const MOST_DIGITS: usize = 5;

// Whether there are 1 to 5 bytes, and no needless leading 0.
fn is_shaped(text: &[u8]) -> bool
    ensures { IsTrue result ↔ Shaped text.now }
{
    !matches!(text, [] | [b'0', _, ..]) && text.len() <= MOST_DIGITS
}

// Reads a number of 1 to 5 digits that has no needless leading 0.
pub(crate) fn read_number(text: &[u8]) -> Option<u32>
    ensures { Reads decimal Small text.now result }
{
    if !is_shaped(text) {
        return None;
    }
    // A loop: `parse` takes more texts, and in a fold each step would have to look whether the value still fits.
    let mut value = 0;
    for b in text {
        value = 10 * value + char::from(*b).to_digit(10)?;
    }
    Some(value)
}

// Each number is written in digits, in one way.
pub fn one_way_to_write()
    ensures { OneWayToWrite }
{}
