//! What the nodes of a pair tell of the link between them.
use crate::client::{Client, PairEnd};
use kv_types::Refusal;
use node_log::{LinkError, Lost, News};
use std::alloc::{AllocError, Global};
use std::io::{self, Write};
use std::sync::Arc;

/// Takes the lines that a primary tells of its link, and lets them go. Within one process a link is opened once and stays, unless memory, a thread or a
/// descriptor is refused to one of its ends, or a socket fails; the primary would then try for ever. So any line but that it is open ends the client's
/// connection: as refused where the line says so, and else as broken.
#[derive(Drop)]
pub struct LinkListener {
    client: Arc<Client>,
    /// The line that says that the link is open.
    open: Vec<u8>,
    /// Those that say that memory was refused before it came up, and while it was.
    closed_by_memory: Vec<u8>,
    lost_by_memory: Vec<u8>,
}

impl LinkListener {
    /// Of the link to a new standby at this address.
    pub fn new(
        alloc: Global,
        client: &Arc<Client>,
        address: &str,
    ) -> Result<LinkListener, AllocError> {
        let position = 0;
        let why = Lost::Refused(Refusal::Memory);
        Ok(LinkListener {
            client: Arc::try_clone(client)?,
            open: line(alloc, News::LinkOpen { address, position })?,
            closed_by_memory: line(alloc, News::NoLink { address, why })?,
            lost_by_memory: line(alloc, News::LinkLost { address, why })?,
        })
    }
}

impl Write for LinkListener {
    fn write(&mut self, buf: &[u8]) -> io::Result<usize> {
        if buf == self.closed_by_memory.as_slice() || buf == self.lost_by_memory.as_slice() {
            self.client.stop(PairEnd::Refused(Refusal::Memory));
        } else if buf != self.open.as_slice() {
            self.client.stop(PairEnd::Broken);
        }
        Ok(buf.len())
    }

    fn flush(&mut self) -> io::Result<()> {
        Ok(())
    }
}

/// Takes the lines that a standby tells of its link, and lets them go, but for that memory was refused, which ends the client's connection: the primary
/// would know no more than that its link is lost. It is told before the link ends.
#[derive(Drop)]
pub struct StandbyListener {
    client: Arc<Client>,
    ended_by_memory: Vec<u8>,
}

impl StandbyListener {
    /// Of a new standby.
    pub fn new(alloc: Global, client: &Arc<Client>) -> Result<StandbyListener, AllocError> {
        let why = LinkError::Refused(Refusal::Memory);
        Ok(StandbyListener {
            client: Arc::try_clone(client)?,
            ended_by_memory: line(alloc, News::LinkEnded { why })?,
        })
    }
}

impl Write for StandbyListener {
    fn write(&mut self, buf: &[u8]) -> io::Result<usize> {
        if buf == self.ended_by_memory.as_slice() {
            self.client.stop(PairEnd::Refused(Refusal::Memory));
        }
        Ok(buf.len())
    }

    fn flush(&mut self) -> io::Result<()> {
        Ok(())
    }
}

/// The line that tells this.
fn line(alloc: Global, news: News<'_>) -> Result<Vec<u8>, AllocError> {
    let mut line = Vec::new(alloc);
    match writeln!(line, "{news}") {
        Ok(()) => Ok(line),
        Err(_) => Err(AllocError),
    }
}
