//! The result of one request for a robots.txt.
//! RFC 9309, section 2.3.1.

/// The result of one request for a robots.txt.
#[derive(Drop)]
pub enum RobotsReply {
    /// A response.
    Status {
        code: u16,
        /// Its Location, if present and UTF-8.
        location: Option<String>,
        body: Vec<u8>,
        /// The seconds for which it may be kept, if it says so (RFC 9111, 5.2.2.1).
        max_age: Option<u64>,
    },
    /// A response with a Content-Encoding other than identity.
    CodingFault,
    /// The connection or the message failed.
    NetworkFault,
}
