//! The tests, and what they share.

mod culling;
mod documents;
mod links;
mod pages;
mod profiles;
mod random_culls;
mod sampling;
mod texts;
