//! The engine of the registry, from bytes to bytes: reads a day text, carries out a command on the day,
//! and writes the command's text.
//!
//! A use of it, proved in `example_uses/src/front.rt`:
//!
//! ```rust
//! ghost use Rattle.std.specs.Prelude.{Some, OnOk};
//! ghost use Rattle.reg_front.specs.Streams.{CanFail};
//! ghost use Rattle.reg_front.specs.Runs.{WritesText};
//! ghost use Rattle.reg_front.specs.declared.command.Command.TheVariants.{Totals};
//!
//! use reg_front::{Command, Counted, FrontFault, Sink, run};
//! use std::alloc::Global;
//! use std::thread::Threads;
//!
//! /// Settles the day of a text, and writes the totals after it.
//! ///
//! /// # Errors
//! /// As [`run`].
//! pub fn write_totals<T: Threads + Sync, W: Sink>(
//!     rt: &T,
//!     alloc: Global,
//!     text: &[u8],
//!     writer: &mut W,
//! ) -> Result<(), FrontFault>
//!     requires { CanFail (W.stream writer.old) }
//!     ensures { OnOk result (WritesText Totals (Some text.now) (W.stream writer.old).bytes
//!         (W.stream writer.new).bytes) }
//! {
//!     let mut reader = Counted::new(text);
//!     run(rt, alloc, &mut reader, writer, Command::Totals)
//! }
//! ```
#![tactic(auto)]

mod calls;
mod command;
mod counted;
mod cuts;
mod device;
mod engine;
mod fault;
mod faulty;
mod input;
mod line;
mod offset;
mod pieces;
mod ranged;
mod ranges;
mod stream;
mod texts;

pub use command::Command;
pub use counted::Counted;
pub use engine::{run, run_without_freeing};
pub use fault::FrontFault;
pub use faulty::Faulty;
pub use line::tell_fault;
pub use ranged::Ranged;
pub use ranges::ReadAt;
pub use stream::{CallFailed, Sink, Source};
