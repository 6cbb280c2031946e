//! Laws of requests, of streams and of replies.
ghost use Rattle.nbd_wire.specs.Decoded.{OneReply, OneSpelling, ReadsBack};
ghost use Rattle.nbd_wire.specs.Head.{OneHead};
ghost use Rattle.nbd_wire.specs.Request.{OneRequest};
ghost use Rattle.nbd_wire.specs.Stream.{AnyPieces, FirstOfStream, FirstRequests, NoRequest, OneReading, WholeStream};

/// No head's bytes begin another's, so what was encoded is decoded again, whatever follows it.
pub fn one_head()
    ensures { OneHead }
{}

/// No request's bytes begin another's, and they are no other request's.
pub fn one_request()
    ensures { OneRequest }
{}

/// Two readings of one stream are one: however it is cut, its requests are the same, and so is what is left
/// after them, which begins with no whole request. The first requests of a stream begin all of them.
pub fn one_reading()
    ensures one { OneReading }
    ensures rest { NoRequest }
    ensures first { FirstRequests }
{}

/// In whatever pieces a stream was fed, the requests that a new reader handed out are those of the whole
/// stream, and another reader of the same stream handed out the same. If memory ran out, they are the first
/// requests of the stream.
pub fn any_pieces()
    ensures whole { WholeStream }
    ensures first { FirstOfStream }
    ensures same { AnyPieces }
{}

/// No reply to a request begins another one, each tells a client one answer, and no other reply tells it.
pub fn one_reply()
    ensures one { OneReply }
    ensures spelling { OneSpelling }
{}

/// What is written for an answer, a client reads as this answer; in which runs bytes are, it learns where they
/// come in chunks of their own.
pub fn reads_back()
    ensures { ReadsBack }
{}
