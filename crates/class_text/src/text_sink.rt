//! A sink that grows.
ghost use Rattle.std.specs.Prelude.{◌<◌, Some, length};

use io_edge::{Failed, Sink};

/// Takes all bytes while there is memory.
#[derive(Drop)]
pub struct TextSink {
    pub bytes: Vec<u8>,
    pub faults: u64,
}

impl Sink for TextSink {
    ghost taken = { λ s. Some s.bytes.items };

    ghost faults = { λ s. s.faults };

    fn write(&mut self, bytes: &[u8]) -> Result<usize, Failed> {
        match self.bytes.extend_from_slice(bytes) {
            Ok(()) => Ok(bytes.len()),
            Err(_) => {
                self.faults = self.faults.saturating_add(1);
                Err(Failed)
            }
        }
    }
}
