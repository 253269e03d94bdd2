//! Elements of structs carried over to another catalogue, width and order of bytes, by a plan.
#![tactic(auto)]

mod element;
mod numbers;

pub use element::apply;
