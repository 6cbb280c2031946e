use export::ExportName;
use std::marker::Brand;

/// Which server it is: its export, and what clients are offered of that. What lies under a lock of the server can name neither, so
/// both are picked where it is made.
pub(crate) trait ServerName: ExportName {
    ghost use Rattle.std.specs.Prelude.{Bool};
    ghost use Rattle.negotiation.specs.Answered.{Offer};

    /// What clients are offered.
    ghost offer: { Offer };

    /// Whether a session may have several requests in progress.
    ghost several: { Bool };
}

/// The member that stands here is the one that nobody picked.
impl ServerName for Brand {
    ghost use Rattle.std.specs.Prelude.{[], false};

    ghost offer = { record {
      size = 4096;
      name = [];
      flushes = false;
    } };

    ghost several = { false };
}
