//! Why a run stops.

use export_sink::ExportStop;
use std::alloc::AllocError;
use tele_io::{DiskFault, LineStop, SinkFault};

/// Why a run ends before it is complete.
#[derive(Clone, Copy, Debug, PartialEq, Eq)]
pub enum Stop {
    ReadFault,
    WriteFault,
    NoMemory,
    TooLong,
}

impl From<LineStop> for Stop {
    ghost use Rattle.std.specs.Prelude.{◌≡◌};
    ghost use Rattle.collector.specs.Lines.{stop_of};

    ghost from_gives = { λ stop result. result ≡ stop_of stop };

    fn from(stop: LineStop) -> Stop {
        match stop {
            LineStop::Fault => Stop::ReadFault,
            LineStop::TooLong => Stop::TooLong,
            LineStop::NoMemory => Stop::NoMemory,
        }
    }
}

impl From<DiskFault> for Stop {
    ghost use Rattle.std.specs.Prelude.{◌≡◌};
    ghost use Rattle.collector.specs.declared.stop.Stop.{Stop};

    ghost from_gives = { λ _ result. result ≡ Stop.WriteFault };

    fn from(_fault: DiskFault) -> Stop {
        Stop::WriteFault
    }
}

impl From<SinkFault> for Stop {
    ghost use Rattle.std.specs.Prelude.{◌≡◌};
    ghost use Rattle.collector.specs.declared.stop.Stop.{Stop};

    ghost from_gives = { λ _ result. result ≡ Stop.WriteFault };

    fn from(_fault: SinkFault) -> Stop {
        Stop::WriteFault
    }
}

impl From<AllocError> for Stop {
    ghost use Rattle.std.specs.Prelude.{◌≡◌};
    ghost use Rattle.collector.specs.declared.stop.Stop.{Stop};

    ghost from_gives = { λ _ result. result ≡ Stop.NoMemory };

    fn from(_error: AllocError) -> Stop {
        Stop::NoMemory
    }
}

impl From<ExportStop> for Stop {
    ghost use Rattle.std.specs.Prelude.{◌≡◌};
    ghost use Rattle.collector.specs.declared.stop.Stop.{Stop};

    ghost from_gives = { λ _ result. result ≡ Stop.WriteFault };

    fn from(_stop: ExportStop) -> Stop {
        Stop::WriteFault
    }
}
