// Says in plain words what becomes of machine control strings: who each is for, what it asks, and where it is refused.
#![tactic(auto)]

mod body;
mod commands;
mod fields;
mod frames;
mod input;
mod message;
mod names;
mod options;
mod ready;
mod refusals;
mod say;
mod stream;
mod text;
mod times;
mod writing;

fn main(rt: HostRuntime) {
    options::run(&rt);
}
