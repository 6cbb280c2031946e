//! Laws of the messages of the handshake.
ghost use Rattle.option_wire.specs.Options.{OneOption, OneRequest, OneSpelling};
ghost use Rattle.option_wire.specs.Reply.{OneReply};

/// An option's number and data are no other option's; it has one spelling, but for data that are ignored. No
/// option as it is sent begins another.
pub fn one_option()
    ensures option { OneOption }
    ensures spelling { OneSpelling }
    ensures request { OneRequest }
{}

/// No reply's bytes begin another's, and they are no other reply's, nor one to another option.
pub fn one_option_reply()
    ensures { OneReply }
{}
