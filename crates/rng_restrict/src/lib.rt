//! The restrictions on schemas (ISO/IEC 19757-2, section 10), in their order.
//!
//! A grammar is judged by its start and the definitions that its start reaches, which a work list finds (`reach`).
//! Each restriction is a walk over each of these patterns (`path`, `content`, `attribute`, `wildcard`, `element`,
//! `text`). `judge` puts the walks together, and `check` asks them in their order.
//!
//! What it costs:
//!
//! - All but the overlaps are linear in the nodes of these patterns.
//! - The numbers that the sides of an interleave refer to are sorted there, and from there on each is kept once, so that
//!   this is n log n by the references in a pattern, and again at each interleave around it by the definitions that
//!   they name.
//! - Classes are compared pair by pair: the square of the attributes of one element, where only those in choice with
//!   one another aren't compared, and in each interleave those of the definitions that one side names with those that
//!   the other names, however often it does, until one fault is known. Two classes of n and m names cost a sort of the
//!   one and a look-up for each name of the other.
#![tactic(auto)]

mod attribute;
pub mod check;
mod classes;
mod content;
mod element;
pub mod fault;
mod judge;
mod numbers;
mod path;
mod reach;
mod text;
mod wildcard;

pub use fault::RestrictFault;
