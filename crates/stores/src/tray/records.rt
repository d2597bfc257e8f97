// The records of a tray as bytes, and how they are written into an area, read there and taken out of it.
// A stage: its marks (two bytes), its kind, a zero.
// A move: the stage it leaves, the stage it enters, its minutes, a zero (two bytes each).
// Numbers have their lower byte first.
ghost use Rattle.std.specs.Prelude.{◌≡◌, ◌+◌, ◌*◌, ◌/◌, ◌<◌, ◌≤◌, length, take, drop, vec_len};
ghost use Rattle.stores.specs.Areas.{Layout, Lawful, put, taken_out};
ghost use Rattle.stores.specs.Records.{stage_layout, move_layout, stage_lawful, move_lawful};

use program::{Kind, Move, Stage};

pub const STAGE_BYTES: usize = 4;

pub const MOVE_BYTES: usize = 8;

// A record that lies in an area as WIDTH bytes, and is read back from them.
pub(crate) trait Record<const WIDTH: usize>: Copy {
    ghost layout: { Layout Self };

    fn to_bytes(self) -> [u8; WIDTH]
        ensures { result ≡ layout.write self };

    fn from_bytes(bytes: &[u8; WIDTH]) -> Self
        ensures { result ≡ layout.read bytes.now };

    ghost lawful: { Lawful layout };
}

impl Record<STAGE_BYTES> for Stage {
    ghost layout = { stage_layout };

    ghost lawful = { stage_lawful };

    fn to_bytes(self) -> [u8; STAGE_BYTES] {
        let [low, high] = self.marks.to_le_bytes();
        [low, high, self.kind as u8, 0]
    }

    fn from_bytes(bytes: &[u8; STAGE_BYTES]) -> Stage {
        let [low, high, kind, _] = *bytes;
        Stage {
            marks: u16::from_le_bytes([low, high]),
            // Any byte is read, so `TryFrom` would have nothing to refuse.
            kind: match kind {
                0 => Kind::Open,
                _ => Kind::Silent,
            },
        }
    }
}

impl Record<MOVE_BYTES> for Move {
    ghost layout = { move_layout };

    ghost lawful = { move_lawful };

    fn to_bytes(self) -> [u8; MOVE_BYTES] {
        let [leaves, leaves_high] = self.leaves.to_le_bytes();
        let [enters, enters_high] = self.enters.to_le_bytes();
        let [minutes, minutes_high] = self.minutes.to_le_bytes();
        [
            leaves,
            leaves_high,
            enters,
            enters_high,
            minutes,
            minutes_high,
            0,
            0,
        ]
    }

    fn from_bytes(bytes: &[u8; MOVE_BYTES]) -> Move {
        let [
            leaves,
            leaves_high,
            enters,
            enters_high,
            minutes,
            minutes_high,
            _,
            _,
        ] = *bytes;
        Move {
            leaves: u16::from_le_bytes([leaves, leaves_high]),
            minutes: u16::from_le_bytes([minutes, minutes_high]),
            enters: u16::from_le_bytes([enters, enters_high]),
        }
    }
}

// Writes the record of number n, and leaves every other byte.
pub(crate) fn put<const WIDTH: usize, R: Record<WIDTH>>(area: &mut Vec<u8>, n: usize, new: R)
    requires { WIDTH * n + WIDTH ≤ vec_len area.old }
    ensures items { area.new.items ≡ put area.old.items (WIDTH * n) (R.layout.write new) }
    ensures len { vec_len area.new ≡ vec_len area.old }
{
    let at = WIDTH * n;
    area[at..at + WIDTH].copy_from_slice(&new.to_bytes());
}

// The record of number n.
pub(crate) fn read<const WIDTH: usize, R: Record<WIDTH>>(area: &[u8], n: usize) -> R
    requires wide { 0 < WIDTH }
    requires in_area { n < length area.now / WIDTH }
    ensures { result ≡ R.layout.read (take WIDTH (drop (WIDTH * n) area.now)) }
{
    R::from_bytes(&area.as_chunks().0[n])
}

// Takes out record k of `count`, where each is `width` bytes wide: later ones stand one place lower, and zeros take the
// last place.
pub(crate) fn take_out(area: &mut Vec<u8>, width: usize, count: usize, k: usize)
    requires { (k < count) × (width * count ≤ vec_len area.old) }
    ensures items { area.new.items
        ≡ taken_out width count k area.old.items }
    ensures len { vec_len area.new ≡ vec_len area.old }
{
    let last = width * (count - 1);
    area.copy_within(width * (k + 1)..width * count, width * k);
    area[last..last + width].fill(0);
}
