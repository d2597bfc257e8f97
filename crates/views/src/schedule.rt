// A schedule: a program that is worked out from a list of segments as it is asked for. It holds no stage and no move.
ghost use Rattle.std.specs.Prelude.{◌≡◌, ◌≤◌, length};
ghost use Rattle.views.specs.Schedules.{most_segments, within_a_week, segment_prog, schedule};
ghost use Rattle.views.specs.ScheduleLimits.{segment_limits};

use program::{Kind, MOST_MINUTES, Move, NO_MOVE, NO_STAGE, Program, Stage};

// A schedule takes so many segments, and leaves the rest.
pub const MOST_SEGMENTS: usize = 16;

// A segment ramps for some minutes, and then holds for some; it bears its marks while it holds.
#[derive(Clone, Copy, PartialEq, Eq, Debug)]
pub struct Segment {
    pub ramp: u32,
    pub hold: u32,
    pub marks: u16,
}

#[derive(Drop)]
pub struct Schedule<'a> {
    segments: &'a [Segment],
    ghost few: { length segments.now ≤ most_segments },
}

impl<'a> Schedule<'a> {
    pub fn new(segments: &'a [Segment]) -> Self
        ensures { segment_prog result.segments.now ≡ schedule segments.now }
    {
        Schedule {
            segments: &segments[..segments.len().min(MOST_SEGMENTS)],
        }
    }
}

// A move lasts a week at most.
fn within_a_week(minutes: u32) -> u16
    ensures { result ≡ within_a_week minutes }
{
    minutes.min(u32::from(MOST_MINUTES)) as u16
}

// A schedule goes over its segments with the index: stages and moves 2 i and 2 i + 1 are those of segment i.
impl Program for Schedule<'_> {
    ghost meaning = { λ x. segment_prog x.segments.now };

    ghost limits = { λ x. segment_limits x.segments.now x.few };

    fn stage_count(&self) -> usize {
        2 * self.segments.len()
    }

    fn move_count(&self) -> usize {
        2 * self.segments.len()
    }

    // Here and below the segments are gone through with their index: the form that the project asks for.
    fn stage(&self, s: usize) -> Stage {
        for (i, segment) in self.segments.iter().enumerate() {
            if s == 2 * i {
                return Stage {
                    marks: 0,
                    kind: Kind::Open,
                };
            }
            if s == 2 * i + 1 {
                return Stage {
                    marks: segment.marks,
                    kind: Kind::Open,
                };
            }
        }
        NO_STAGE
    }

    fn move_at(&self, k: usize) -> Move {
        for (i, segment) in self.segments.iter().enumerate() {
            let ramp = 2 * i as u16;
            let hold = ramp + 1;
            if k == 2 * i {
                return Move {
                    leaves: ramp,
                    minutes: within_a_week(segment.ramp),
                    enters: hold,
                };
            }
            if k == 2 * i + 1 {
                let goes_on = i + 1 < self.segments.len();
                return Move {
                    leaves: hold,
                    minutes: within_a_week(segment.hold),
                    enters: if goes_on { ramp + 2 } else { 0 },
                };
            }
        }
        NO_MOVE
    }
}
