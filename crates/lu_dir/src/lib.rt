//! The outside of the library: a folder, an input and an output, as traits that tell what each call does and what
//! each failure leaves, in memory, with failures on demand, and over the real device.
#![tactic(auto)]

mod asked;
mod call_plan;
mod dir;
mod fail;
mod fault_count;
mod fault_dir;
mod fault_stream;
mod file_map;
mod host_dir;
mod host_stream;
pub mod laws;
mod loading;
mod mem_dir;
mod mem_stream;
mod plan;
mod reading;
mod stream;
mod writing;

pub use dir::Dir;
pub use fail::DirFail;
pub use fault_dir::FaultDir;
pub use fault_stream::{FaultSink, FaultSource};
pub use host_dir::HostDir;
pub use host_stream::{HostSink, HostSource};
pub use loading::{LoadFault, Loaded, load};
pub use mem_dir::MemDir;
pub use mem_stream::{MemSink, MemSource};
pub use plan::{Fail, Left};
pub use reading::read_all;
pub use stream::{Sink, Source};
pub use writing::write_all;
