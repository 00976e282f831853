// Lines by themselves: what they answer, and when they are quiet.
use line::joint::Joint;
use line::line::Line;
use line::table_line::TableLine;
use line::wire::Wire;
use std::process::Abort;

// The levels that are put in, with no period that a line could hide.
fn level(place: u32) -> bool {
    place.wrapping_mul(2654435769) % 65536 < 32768
}

// A new line answers high levels, and then what it was given so many levels before.
fn delays_by<L: Line>(rt: &impl Abort, line: &mut L, delay: u32) {
    for place in 0..1000u32 {
        let due = if place < delay {
            true
        } else {
            level(place - delay)
        };
        assert_eq!(rt; line.pass(level(place)), due, "{}", place);
    }
}

// A new line is quiet, and a low level keeps it from being so as long as the line holds it.
fn is_quiet_but_for<L: Line>(rt: &impl Abort, line: &mut L, delay: u32) {
    assert!(rt; line.is_quiet());
    line.pass(false);
    for place in 0..delay {
        assert!(rt; !line.is_quiet(), "{}", place);
        line.pass(true);
    }
    assert!(rt; line.is_quiet());
}

#[test]
fn a_wire_answers_what_it_is_given(rt: HostRuntime) {
    is_quiet_but_for(&rt, &mut Wire, 0);
    delays_by(&rt, &mut Wire, 0);
}

#[test]
fn a_table_line_answers_what_it_was_given_64_levels_before(rt: HostRuntime) {
    is_quiet_but_for(&rt, &mut TableLine::new(), 64);
    delays_by(&rt, &mut TableLine::new(), 64);
}

#[test]
fn a_joint_of_a_wire_and_a_table_line_holds_64_levels(rt: HostRuntime) {
    is_quiet_but_for(&rt, &mut Joint::new(Wire, TableLine::new()), 64);
    delays_by(&rt, &mut Joint::new(Wire, TableLine::new()), 64);
    delays_by(&rt, &mut Joint::new(TableLine::new(), Wire), 64);
}

#[test]
fn a_joint_of_two_table_lines_holds_128_levels(rt: HostRuntime) {
    is_quiet_but_for(
        &rt,
        &mut Joint::new(TableLine::new(), TableLine::new()),
        128,
    );
    delays_by(
        &rt,
        &mut Joint::new(TableLine::new(), TableLine::new()),
        128,
    );
}

#[test]
fn joints_are_lines_to_join(rt: HostRuntime) {
    let two = Joint::new(TableLine::new(), TableLine::new());
    delays_by(&rt, &mut Joint::new(two, Wire), 128);
    let two = Joint::new(TableLine::new(), TableLine::new());
    delays_by(&rt, &mut Joint::new(two, TableLine::new()), 192);
}
