// The marks of a stage as a page has them: letters out of a to p, in rising order.
ghost use Rattle.layout.specs.Reading.{Reads, OneReading};
ghost use Rattle.layout.specs.Letters.{letters, Sixteen};

// Reads letters in strictly rising order as the set of their marks: mark a is bit 0.
pub(crate) fn read_marks(text: &[u8]) -> Option<u16>
    ensures { Reads letters Sixteen text.now result }
{
    // A loop, since a fold would have to carry the marks and the next letter as a pair.
    let mut marks = 0;
    let mut next = b'a';
    for letter in text {
        if !(next..=b'p').contains(letter) {
            return None;
        }
        marks += 1 << (*letter - b'a');
        next = *letter + 1;
    }
    Some(marks)
}

// Each set of marks is written in its own way.
pub fn marks_read_one_way()
    ensures { OneReading letters Sixteen }
{}
