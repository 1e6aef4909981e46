//! What devices and a server do, one thing after another, through changes of password, as one list of steps of
//! the world.
#![tactic(auto)]

mod laws;

pub use laws::{
    all_fit_first, all_go, all_go_by, all_go_with, all_keep, all_keep_by, all_keep_with,
    apart_may_call, each_fits, each_holds_of, each_keeps, each_keeps_plain, each_leads,
    each_served, first_holds_of, params_stay, plain_keeps,
};
