//! A change of password and a rewrap as moves of the ideal account, by a server's rule, and what they
//! leave.
#![tactic(auto)]

pub mod laws;
pub mod leaving_laws;
