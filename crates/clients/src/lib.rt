//! Connections, and the threads that drive them: each reads the requests and writes the replies of many.
#![tactic(auto)]

mod block;
mod broken_off;
mod connecting;
mod crossing;
mod driven;
mod driven_connections;
mod driver;
mod intake;
mod look_ahead;
mod measured;
mod outbox;
mod places;
mod queues;
mod read_ahead;
mod reading;
mod registration;
mod reply_side;
mod request_side;
mod room;
mod signals;
mod stillness;
mod writing;

pub use block::{BLOCK_BYTES, Block, LEAST_ROOM_BYTES};
pub use broken_off::BrokenOff;
pub use connecting::{Admission, Connection, new_connection};
pub use crossing::{driver_is_send, entrance_is_send};
pub use driven::DrivenConnection;
pub use driver::Driver;
pub use intake::DriverEntrance;
pub use look_ahead::LookAhead;
pub use outbox::{Outbox, Taken};
pub use queues::{ReplyQueue, RequestQueue};
pub use reading::{LastPiece, Progress, RequestReader, TURN_BLOCKS};
pub use reply_side::ReplySide;
pub use request_side::RequestSide;
pub use room::{SharedRoom, SocketRoom};
pub use signals::{HasLeft, Signals, WasOver};
pub use writing::{Round, write_round};
