//! Both ends as one world, the invariant that they keep, and the laws that each step keeps it.
#![tactic(auto)]

mod answering_laws;
mod fitting_laws;
mod holding_laws;
mod laws;
mod plain_laws;
mod settling_laws;

pub use answering_laws::{syncs_answer, traced_syncs_answer};
pub use fitting_laws::{
    calls_fit, calls_go_by, devices_fit, first_fits, fresh_fits, lines_go_by, lines_keep_by,
    requests_fit, runs_stay_fitting, sends_fit, steps_fit, steps_fit_uuids, syncs_end_by,
    traces_fit,
};
pub use holding_laws::{keeps_held, traces_held};
pub use laws::{
    again_leads, applied_whole, calls_go, changed_adopts, fronts_go, holds_first, keeps,
    keeps_committing, keeps_making, keeps_serving, keeps_starting, leads_keep, makes_live,
    registered_begins, registers_go, rounds_go, says_some, sends_are_posted, served_tells,
    sign_ins_go, signed_in_adopts, signed_in_begins, signed_in_renews, synced_rows, syncs_end,
    syncs_go, trace_keeps,
};
pub use plain_laws::{keeps_plain, lines_go, lines_keep, plain_first, plain_rows, plain_says};
pub use settling_laws::{applies_live, keeps_settling, settles_gone, settles_own};
