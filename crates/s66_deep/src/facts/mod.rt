//! Fact lines of a block, which hold for all orders or for those that take less than a bound. Nothing is promised of what is found:
//! `Facts` takes a line only if it is right, and on trust what a supposition shows: whether that is right too is for a checker to say.

mod arcs;
mod copies;
mod finder;
mod found;
mod ground;
mod load;
mod needed;
mod network;
mod nodes;
mod pairs;
mod precedence;
mod selection;
mod shares;
mod sketch;
mod sort;
mod spans;
mod suppositions;
mod taken;
mod trial;
mod tried_loads;
mod uses;
mod ways;

pub(crate) use copies::copy_of;
pub use finder::Finder;
pub(crate) use ground::Ground;
pub(crate) use precedence::Precedence;
