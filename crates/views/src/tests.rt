// A schedule and its minute by minute views, asked once each.
use crate::minute::MinuteView;
use crate::schedule::{Schedule, Segment};
use program::{Move, Program};

const SEGMENTS: [Segment; 2] = [
    Segment {
        ramp: 3,
        hold: 1,
        marks: 5,
    },
    Segment {
        ramp: 20000,
        hold: 0,
        marks: 2,
    },
];

fn leads(leaves: u16, minutes: u16, enters: u16) -> Move {
    Move {
        leaves,
        minutes,
        enters,
    }
}

#[test]
fn schedule_of_two_segments(rt: HostRuntime) {
    let schedule = Schedule::new(&SEGMENTS);
    assert_eq!(rt; schedule.stage_count(), 4);
    assert_eq!(rt; schedule.move_at(2), leads(2, 10080, 3));
    assert_eq!(rt; schedule.move_at(3), leads(3, 0, 0));
}

#[test]
fn view_of_a_view(rt: HostRuntime) {
    let schedule = Schedule::new(&SEGMENTS[0..1]);
    let view = MinuteView::new(&schedule);
    assert_eq!(rt; view.stage_count(), 4);
    assert_eq!(rt; view.move_at(2), leads(3, 1, 1));
    let again = MinuteView::new(&view);
    assert_eq!(rt; again.move_at(2), leads(3, 1, 1));
}

#[test]
fn view_of_a_long_move(rt: HostRuntime) {
    let schedule = Schedule::new(&SEGMENTS);
    let view = MinuteView::new(&schedule);
    assert_eq!(rt; view.stage_count(), 0);
    assert_eq!(rt; view.move_count(), 0);
}
