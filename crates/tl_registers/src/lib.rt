//! The miss registers of a bank: what home is at work on, and the one rule that says what a register does next.
#![tactic(auto)]

mod client_set;
mod due;
mod laws;
mod register;
mod register_view;
mod registers;
mod victim_way;
mod way_of_set;

pub use client_set::ClientSet;
pub use due::Due;
pub use laws::{
    every_action_is_permitted, every_register_acts, pending_is_the_protocols, registers_agree,
};
pub use register::{Register, Task};
pub use register_view::{BlockView, RegisterView};
pub use registers::Registers;
pub use victim_way::first_in_order_is_oldest;
pub use way_of_set::WayOfSet;
