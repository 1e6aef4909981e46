//! The command lines of the program `sn`: what `clap` takes, and what each line says, by the values that its words give.
#![tactic(auto)]

mod command_line;
mod commands;
mod cost;
mod device_line;
mod given;
mod number;
mod server;
mod syntax;

pub use command_line::{
    Command, GenOptions, ItemOptions, LineError, ParamsOptions, ServeOptions, command_of,
};
pub use device_line::{DeviceCommand, DeviceOptions, LEAST_COST};
