// "The program timetable reads the plan's length (two bytes), the plan and outcome bytes".
#![tactic(auto)]

use timetable_output::print_timetable;

// A failed write ends it, and leaves the table unfinished: its last line says whether it is whole.
fn main(rt: HostRuntime) {
    let mut input = rt.reader();
    let mut output = rt.stdout();
    print_timetable(&mut input, &mut output);
}
