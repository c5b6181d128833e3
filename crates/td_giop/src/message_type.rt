//! The message types (chapter "General Inter-ORB Protocol", "GIOP Message Header").

/// A Request, by which a client calls an operation.
pub const REQUEST: u8 = 0;

/// A Reply to a Request.
pub const REPLY: u8 = 1;

/// A CancelRequest, by which a client tells that it no longer waits for a reply.
pub const CANCEL_REQUEST: u8 = 2;

/// A LocateRequest, by which a client asks whether an object is here.
pub const LOCATE_REQUEST: u8 = 3;

/// A LocateReply to a LocateRequest.
pub const LOCATE_REPLY: u8 = 4;

/// A CloseConnection, by which a server closes a connection.
pub const CLOSE_CONNECTION: u8 = 5;

/// A MessageError, which answers a message whose header isn't known. The highest type.
pub const MESSAGE_ERROR: u8 = 6;
