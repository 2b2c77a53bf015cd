//! What goes out on a standby's link.
ghost use Rattle.std.specs.Prelude.{◌≡◌};

use greeting::GREETING_BYTES;
use node_log::Progress;
use std::cell::Cell;
use std::io::{self, Write};
use std::net::TcpStream;
use std::sync::Arc;
use std::time::Duration;

/// How long a write may wait for the other side, in seconds.
const PATIENCE_SECONDS: u64 = 5;

/// How many bytes the greeting has.
const GREETING: u64 = GREETING_BYTES as u64;

/// A write there that is not taken for some seconds fails from now on.
pub(crate) fn limit_writes(stream: &TcpStream) {
    let _ = stream.set_write_timeout(Some(Duration::from_secs(PATIENCE_SECONDS)));
}

/// What goes out on a link, the greeting and then an acknowledgement at a time, how many bytes went through, and where the node shows how far it is. It holds
/// what the stream holds.
#[derive(Drop)]
pub(crate) struct LinkWriter<'a, S> {
    stream: S,
    written: &'a Cell<u64>,
    progress: &'a Option<Arc<Progress>>,
}

impl<'a, S> LinkWriter<'a, S> {
    /// What goes out on this link, where its bytes are counted, and where they are shown.
    pub(crate) fn new(
        stream: S,
        written: &'a Cell<u64>,
        progress: &'a Option<Arc<Progress>>,
    ) -> LinkWriter<'a, S>
        ensures { result.stream ≡ stream }
    {
        LinkWriter {
            stream,
            written,
            progress,
        }
    }
}

impl<S: Write> Write for LinkWriter<'_, S> {
    ghost contents = { λ writer. S.contents writer.stream };

    fn write(&mut self, buf: &[u8]) -> io::Result<usize> {
        let count = self.stream.write(buf)?;
        let before = self.written.get();
        if let Some(progress) = self.progress {
            // (the greeting says nothing of that, and the first acknowledgement where the node is)
            if before >= GREETING {
                progress.note(buf, before > GREETING);
            }
        }
        self.written.set(before.saturating_add(count as u64));
        Ok(count)
    }

    fn flush(&mut self) -> io::Result<()> {
        Ok(())
    }
}
