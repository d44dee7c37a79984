//! Requests that a crawler writes and responses that it reads.
//! RFC 9110 and RFC 9112, in the profile of docs/FORMATS.md.
#![tactic(auto)]

mod body;
mod body_decoder;
mod buffer;
mod chunked;
mod ending;
mod fault;
mod fields;
mod forwarded_fields;
mod framing;
mod freshness;
mod head;
mod head_scan;
mod kept_fields;
mod limits;
mod line_ends;
mod numbers;
mod part;
mod part_seen;
mod persistence;
mod request;
mod response;
mod trailers;

pub use ending::ConnectionEnding;
pub use fault::WireFault;
pub use forwarded_fields::{FieldValue, ForwardedFields};
pub use kept_fields::KeptField;
pub use limits::{
    LARGEST_LIMIT, MAX_HEAD, MAX_HEADER_LINES, MAX_INTERIM_HEADS, MAX_RAW, MAX_TRAILER_BYTES,
    MAX_TRAILERS, USUAL_LIMIT,
};
pub use request::{write_get, write_get_with};
pub use response::{HttpReply, read_response, read_response_with};
