//! The pair of nodes as a machine: what may happen, and what is promised of every run.
#![tactic(auto)]

mod event;
mod laws;

pub use event::{Cut, Event, KEPT_GROUPS, Mark, Node, OPEN_CHANGES, PIPE_ITEMS, Runners, SEATS};
pub use laws::{
    a_newcomer_is_a_run, calls_take_requests_in_order, connections_stay_over,
    every_run_is_promised, every_world_is_sound, failover_is_a_run, failover_keeps_the_list,
    first_case_is_a_run, frames_are_committed_groups, nothing_comes_of_nothing,
    positions_are_in_order, replies_add_up, runs_are_made_of_steps,
    transactions_are_read_off_the_list, who_is_behind_gets_a_delta, worlds_grow,
};
