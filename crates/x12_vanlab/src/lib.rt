//! Runs a script: what happens in a network, line by line, from any reader to any writer. Writes the
//! report of what everybody holds.
#![tactic(auto)]

mod script;
mod script_action;
mod script_bad_line;
mod script_comment;
mod script_event;
mod script_fault;
mod script_form;
mod script_line;
mod script_lines;
mod script_name;
mod script_network;
mod script_playing;
mod script_reading;
mod script_setting;
mod script_status;
mod script_stop;
mod script_telling;
mod script_word;

pub use script::run_script;
pub use script_status::ScriptStatus;
