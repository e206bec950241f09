//! The top call: all that the program does.
#![tactic(auto)]

mod commands;
mod demo_lines;
mod fragment;
mod inputs;
mod laws;
mod list_task;
mod listing;
mod messages;
mod numbered;
mod pieces;
mod reading;
mod status;
mod tasks;
mod top;

pub use laws::{
    done_shows_each_class, restriction_is_item, resumed_text_is_whole, run_text_exists,
    stopped_texts_begin_whole_ones, texts_show_each_choice,
};
pub use status::{Refusal, Status};
pub use top::{run, run_alone};

#[cfg(test)]
mod tests;
