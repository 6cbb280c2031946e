ghost use Rattle.std.specs.Prelude.{◌≡◌};
ghost use Rattle.shared_store.specs.Logs.{IsLogOf};

use crate::name::ExportName;
use marks::Trust;
use request_core::Mode;
use std::marker::{Model, PhantomData};

/// When an export answers write commands. If its board keeps a log, the log is of this mode, and of the export's image and device.
#[derive(Drop)]
pub(crate) struct LogMode<B: ExportName, T: Trust> {
    mode: Mode,
    name: PhantomData<B>,
    of: PhantomData<T>,
}

impl<B: ExportName, T: Trust> Model for LogMode<B, T> {
    ghost use Rattle.export_model.specs.declared.step.Mode.{Mode};
    ghost use Rattle.shared_store.specs.Logs.{IsLogOf};

    ghost Value = { Mode };

    ghost view = { λ log. log.mode };

    ghost invariant = { λ log. T.logs → IsLogOf B.opening B.image B.vouches B.trusted log.mode T.trusted T.mode T.image };
}

impl<B: ExportName, T: Trust> LogMode<B, T> {
    pub(crate) fn new(mode: Mode) -> LogMode<B, T>
        requires { T.logs → IsLogOf B.opening B.image B.vouches B.trusted mode T.trusted T.mode T.image }
        ensures { result ≡ mode }
    {
        LogMode {
            mode,
            name: PhantomData,
            of: PhantomData,
        }
    }

    pub(crate) fn mode(&self) -> Mode
        ensures mode { result ≡ self.now }
        ensures log { T.logs → IsLogOf B.opening B.image B.vouches B.trusted self.now T.trusted T.mode T.image }
    {
        self.mode
    }
}
