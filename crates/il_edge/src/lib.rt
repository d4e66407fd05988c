//! The edge: where bytes come in and go out. A [`Source`] gives bytes, a [`Sink`] takes them, and each counts its
//! faults, so that a caller that gives up can be held to a fault of the device. Contracts name the bytes that a source
//! has left and that a sink holds, where these are told. [`MemSource`] and [`MemSink`] keep them in memory and fail by
//! a list of call numbers; [`SureSource`] and [`SureSink`] keep them in memory and do not fail while there is room;
//! [`StdSource`] and [`StdSink`] adapt std's reader and writer, whose bytes are not told. [`read_all`] and
//! [`write_all`] move whole texts in time linear in their bytes and calls.
#![tactic(auto)]

mod device;
mod mem_sink;
mod mem_source;
mod numbered;
mod standard;
mod sure_sink;
mod sure_source;
mod whole;

pub use device::{Failed, Sink, Source};
pub use mem_sink::MemSink;
pub use mem_source::MemSource;
pub use standard::{StdSink, StdSource};
pub use sure_sink::SureSink;
pub use sure_source::SureSource;
pub use whole::{ReadEnd, read_all, write_all};
