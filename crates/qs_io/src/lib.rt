//! Sources and sinks of bytes, whose faults are counted and have no other cause; and gates, which may hold the acts of a burst back.
#![tactic(auto)]

mod faults;
mod gate;
mod giving;
mod mem_sink;
mod mem_source;
mod reading;
mod sink;
mod source;
mod std_sink;
mod std_source;

pub use faults::{ReadFailed, ReadFault, WriteFailed};
pub use gate::{Gate, OpenGate};
pub use giving::give_all;
pub use mem_sink::MemSink;
pub use mem_source::MemSource;
pub use reading::read_text;
pub use sink::Sink;
pub use source::Source;
pub use std_sink::StdSink;
pub use std_source::StdSource;
