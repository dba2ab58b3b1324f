//! From an answer to a promise: what a program over any volume and any machine may say of its calls. docs/LIBRARY.md leads
//! through it.
#![tactic(auto)]

mod fault;
mod filling;
mod forcing;
mod walking;

pub use fault::ExampleFault;
pub use filling::put_and_read;
pub use forcing::put_and_force;
pub use walking::count;
