//! What a running server counts, and the texts in which it tells that: JSON, Prometheus' text format, and the HTTP that carries them.
#![tactic(auto)]

mod figures;
mod http;
mod json;
mod prometheus;
mod sheet;
mod tally;

pub use figures::{
    CommandFigures, ErrorFigures, Figures, FrameFigures, JournalFigures, LatencyFigures,
    NumberFigures, OpeningFigures, PendingFigures, RequestFigures, Setup, WaitFigures, WorkFigures,
};
pub use http::{MOST_REQUEST_BYTES, Route, head_of, is_head, response, route_of};
pub use json::{opening_status_text, status_text};
pub use prometheus::{metrics_text, opening_metrics_text};
pub use sheet::{Family, Kind, Sheet, Unit, write_figures};
pub use tally::{BOUNDS, Command, Counter, Failure, RequestTally, WorkTally, bucket_of};
