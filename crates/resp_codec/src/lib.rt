//! Both directions of the protocol: requests parsed from bytes in any pieces, and replies as bytes.
#![tactic(auto)]

mod laws;
mod parser;
mod reading;
mod replies;
mod reply_heads;
mod reply_item;
mod reply_laws;
mod reply_limits;
mod reply_parser;
mod reply_reading;
mod request_reading;
mod unread;

pub use laws::in_any_pieces;
pub use parser::Parser;
pub use replies::write_reply;
pub use reply_item::ReplyItem;
pub use reply_laws::{
    replies_are_bounded, replies_are_held, replies_are_read_back, replies_in_any_pieces,
};
pub use reply_limits::{REPLY_LIMITS, ReplyLimits};
pub use reply_parser::ReplyParser;
