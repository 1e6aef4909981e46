//! What a device is: its rows, the steps that its commits are, and the runs that its calls are, with their laws.
#![tactic(auto)]

mod error;
mod laws;
mod listed;

pub use error::{ClientError, Place};
pub use laws::{
    draft_adopted, draft_kept, draft_kept_by_answer, draft_kept_by_passwd, draft_kept_by_sign_in,
    draft_kept_by_sync, draft_stays, fresh_is_sound, runs_by_steps, runs_stay_sound,
    runs_stay_sound_device, stay_standing, stay_well, steps_stay_sound, steps_stay_sound_device,
    tells_soundness,
};
pub use listed::{Listed, Mark};
