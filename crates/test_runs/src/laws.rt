//! Each law, called once.
use ccan_line::line_process_laws;
use ccan_machine::{
    begin_laws, begun_laws, machine_laws, process_laws, scan_laws, uncontended_laws,
    undisturbed_laws, wait_laws,
};
use ccan_outcomes::{place_laws, quiet_laws, race_laws, same, seat_laws};
use ccan_run::laws;

#[test]
fn laws_of_runs_hold() {
    ccan_script::laws::one_meaning();
    ccan_script::laws::what_was_read_has_a_meaning();
    ccan_script::laws::one_race();
    ccan_script::laws::a_script_is_a_race();
    ccan_script::laws::lines_go_by_the_table();
    ccan_script::check::laws::finds_what_is_refused();
    laws::one_text();
    laws::what_was_printed_is_the_text();
    laws::no_line_is_busy();
    laws::answers_have_events();
    laws::last_lines_are_finals();
    laws::no_word_runs();
    laws::run_runs();
    laws::threads_means_threads();
    laws::other_words_are_refused();
}

#[test]
fn laws_of_processes_hold() {
    ccan_process::laws::processes_run_once::<u64>();
    ccan_process::laws::runs_are_apart::<u64>();
    line_process_laws::host_lines_are_processes();
    line_process_laws::bus_lines_are_processes();
    line_process_laws::bus_line_ends_are_processes();
    line_process_laws::ports_add_as_processes();
    line_process_laws::ports_are_processes();
}

#[test]
fn laws_of_outcomes_hold() {
    seat_laws::hosts_begin_as_processes();
    seat_laws::host_steps_are_acts();
    seat_laws::steps_stay_within();
    seat_laws::hosts_notice_as_processes();
    seat_laws::hosts_end_as_processes();
    seat_laws::steps_are_own();
    seat_laws::own_are_found();
    place_laws::stages_tell_places();
    process_laws::steps_are_the_whole();
    same::equal_records_are_the_same();
    same::equal_ends_are_the_same();
    machine_laws::all_outcomes_are_reached();
    machine_laws::walks_are_histories();
    undisturbed_laws::no_end_is_lost();
    undisturbed_laws::attempts_at_once_lose_no_end();
    undisturbed_laws::scans_at_once_lose_no_end();
    uncontended_laws::contended_tries_can_be_lost();
    uncontended_laws::no_free_end_is_lost();
    wait_laws::waits_look_once();
    wait_laws::waits_end_alike();
    begin_laws::start_can_begin();
    begin_laws::races_can_begin();
    begin_laws::waits_end_alike_behind();
    begin_laws::waits_look_once_behind();
    begun_laws::races_begin_in_one_way();
    begun_laws::beginnings_are_reached();
    begun_laws::races_can_begin_at_once();
    begun_laws::runs_behind_nothing();
    race_laws::races_at_once();
    scan_laws::bus_lines_scan_well();
    scan_laws::start_can_scan();
    scan_laws::races_can_scan();
    quiet_laws::hosts_leave_alone();
    quiet_laws::hosts_have_done();
    quiet_laws::bus_leaves_alone();
    quiet_laws::hosts_leave_within();
    quiet_laws::bus_leaves_within();
}
