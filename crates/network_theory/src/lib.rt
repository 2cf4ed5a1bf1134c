//! The theory of nets of nodes that take turns: what a turn does, what is still to come, and the laws of
//! every schedule.
#![tactic(auto)]

mod laws;

pub use laws::{
    due_falls, flight_is_bounded, flows_are_streamed, forests_are_trees, leaves_read_ahead,
    nets_stay_sound, opening_owes, points_come_in_order, queues_keep_order, rest_stays,
    schedules_agree, some_node_moves, trees_have_depths, turns_carry,
};
