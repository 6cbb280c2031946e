//! Laws of sessions and of their dialogs.
ghost use Rattle.negotiation.specs.Dialog.{OneHearing};
ghost use Rattle.negotiation.specs.Serving.{OneDialog};

/// However a stream is cut, each reader of it finds the same answers to options and the same requests.
pub fn one_hearing()
    ensures { OneHearing }
{}

/// However a stream is cut, for each reader the same replies to its requests make the same dialog.
pub fn one_dialog()
    ensures { OneDialog }
{}
