//! What the thread of a serving node does, as events of the machine.
#![tactic(auto)]

mod laws;

pub use laws::{
    acts_go_on, answering_is_an_act, any_order_is_acts, closing_is_an_act, copying_is_an_act,
    openings_stand, others_change_nothing, seats_are_acts, telling_is_an_act, turns_are_acts,
};
