//! Figures in Prometheus' text format, version 0.0.4.

use crate::figures::{Figures, LatencyFigures, OpeningFigures, Setup};
use crate::sheet::{
    Family, Kind, Sheet, Unit, gauge, write_disk_full, write_figures, write_opening,
};
use crate::tally::BOUNDS;
use std::alloc::{AllocError, Global};
use std::fmt::{self, Display, Formatter};

// Lines of the format.
#[derive(Drop)]
struct Lines {
    text: String,
}

// Microseconds, as seconds.
#[derive(Clone, Copy)]
struct Seconds(u64);

impl Display for Seconds {
    fn fmt<W: fmt::Write>(&self, f: &mut Formatter<W>) -> fmt::Result {
        write!(f, "{}.{:06}", self.0 / 1_000_000, self.0 % 1_000_000)
    }
}

// The value of a label, between quotes.
#[derive(Clone, Copy)]
struct Quoted<'a>(&'a str);

impl Display for Quoted<'_> {
    fn fmt<W: fmt::Write>(&self, f: &mut Formatter<W>) -> fmt::Result {
        for letter in self.0.chars() {
            match letter {
                '\\' => write!(f, "\\\\")?,
                '"' => write!(f, "\\\"")?,
                '\n' => write!(f, "\\n")?,
                _ => write!(f, "{letter}")?,
            }
        }
        Ok(())
    }
}

// What stands after a family's name.
fn suffix(family: &Family<'_>) -> &'static str {
    match (family.unit, family.kind) {
        (Unit::One, Kind::Gauge) => "",
        (Unit::One, Kind::Counter) => "_total",
        (Unit::Micros, Kind::Gauge) => "_seconds",
        (Unit::Micros, Kind::Counter) => "_seconds_total",
    }
}

impl Lines {
    // The lines that begin a family.
    fn begin(&mut self, family: &Family<'_>) -> Result<(), AllocError> {
        let (name, end) = (family.name, suffix(family));
        let kind = match family.kind {
            Kind::Counter => "counter",
            Kind::Gauge => "gauge",
        };
        writeln!(self.text, "# HELP nbdj_{name}{end} {}", family.help)?;
        writeln!(self.text, "# TYPE nbdj_{name}{end} {kind}")
    }

    // The families that tell which program serves what, how it runs, and whether it still opens the image.
    fn write_start(&mut self, setup: &Setup<'_>, is_opening: bool) -> Result<(), AllocError> {
        writeln!(
            self.text,
            "# HELP nbdj_build_info The version of the server, and its image."
        )?;
        writeln!(self.text, "# TYPE nbdj_build_info gauge")?;
        writeln!(
            self.text,
            "nbdj_build_info{{version=\"{}\",image=\"{}\"}} 1",
            setup.version,
            Quoted(setup.image)
        )?;
        self.write_setup(setup)?;
        self.figure(
            gauge(
                "opening",
                "1 while the image is opened, when no client is served yet.",
            ),
            u64::from(is_opening),
        )
    }

    // The family that tells how the server runs.
    fn write_setup(&mut self, setup: &Setup<'_>) -> Result<(), AllocError> {
        writeln!(self.text, "# HELP nbdj_info How the server runs.")?;
        writeln!(self.text, "# TYPE nbdj_info gauge")?;
        write!(
            self.text,
            "nbdj_info{{path=\"{}\",export=\"{}\",cache=\"{}\"",
            Quoted(setup.path),
            Quoted(setup.export),
            setup.cache
        )?;
        writeln!(
            self.text,
            ",size=\"{}\",layout=\"{}\",workers=\"{}\",in_flight=\"{}\",loss_bytes=\"{}\"}} 1",
            setup.size, setup.layout, setup.workers, setup.in_flight, setup.loss_bytes
        )
    }

    // The family that tells whether the device has failed, and why.
    fn write_failure(&mut self, failure: &str, has_failed: bool) -> Result<(), AllocError> {
        writeln!(
            self.text,
            "# HELP nbdj_failed 1 once a call of the device has failed, and each request gets EIO; and why."
        )?;
        writeln!(self.text, "# TYPE nbdj_failed gauge")?;
        writeln!(
            self.text,
            "nbdj_failed{{cause=\"{}\"}} {}",
            Quoted(failure),
            u8::from(has_failed)
        )
    }

    // The value at the end of a line.
    fn end(&mut self, unit: Unit, value: u64) -> Result<(), AllocError> {
        match unit {
            Unit::One => writeln!(self.text, " {value}"),
            Unit::Micros => writeln!(self.text, " {}", Seconds(value)),
        }
    }

    // The lines of one histogram.
    fn histogram(
        &mut self,
        name: &str,
        command: &str,
        latency: &LatencyFigures,
    ) -> Result<(), AllocError> {
        let mut sum = 0u64;
        for (bound, count) in BOUNDS.iter().zip(latency.buckets.iter()) {
            sum = sum.wrapping_add(*count);
            writeln!(
                self.text,
                "nbdj_{name}_seconds_bucket{{command=\"{command}\",le=\"{}\"}} {sum}",
                Seconds(*bound)
            )?;
        }
        let count = latency.count();
        writeln!(
            self.text,
            "nbdj_{name}_seconds_bucket{{command=\"{command}\",le=\"+Inf\"}} {count}"
        )?;
        writeln!(
            self.text,
            "nbdj_{name}_seconds_sum{{command=\"{command}\"}} {}",
            Seconds(latency.total_micros)
        )?;
        writeln!(
            self.text,
            "nbdj_{name}_seconds_count{{command=\"{command}\"}} {count}"
        )
    }
}

impl Sheet for Lines {
    fn figure(&mut self, family: Family<'_>, value: u64) -> Result<(), AllocError> {
        self.begin(&family)?;
        write!(self.text, "nbdj_{}{}", family.name, suffix(&family))?;
        self.end(family.unit, value)
    }

    fn labelled(
        &mut self,
        family: Family<'_>,
        label: &str,
        values: &[(&str, u64)],
    ) -> Result<(), AllocError> {
        self.begin(&family)?;
        for (item, value) in values {
            let end = suffix(&family);
            write!(self.text, "nbdj_{}{end}{{{label}=\"{item}\"}}", family.name)?;
            self.end(family.unit, *value)?;
        }
        Ok(())
    }

    fn latencies(
        &mut self,
        name: &str,
        help: &str,
        values: &[(&str, &LatencyFigures)],
    ) -> Result<(), AllocError> {
        writeln!(self.text, "# HELP nbdj_{name}_seconds {help}")?;
        writeln!(self.text, "# TYPE nbdj_{name}_seconds histogram")?;
        for (command, latency) in values {
            self.histogram(name, command, latency)?;
        }
        Ok(())
    }
}

/// The figures of a server, in Prometheus' text format; and why a call of the device has failed, if one has.
pub fn metrics_text(
    alloc: Global,
    setup: &Setup<'_>,
    failure: &str,
    figures: &Figures,
) -> Result<String, AllocError> {
    let mut lines = Lines {
        text: String::new(alloc),
    };
    lines.write_start(setup, figures.opening.is_opening)?;
    lines.write_failure(failure, figures.has_failed)?;
    write_figures(&mut lines, figures)?;
    Ok(lines.text)
}

/// The figures of a server that still opens its image, in Prometheus' text format.
pub fn opening_metrics_text(
    alloc: Global,
    setup: &Setup<'_>,
    uptime_micros: u64,
    opening: &OpeningFigures,
    waits_for_space: bool,
) -> Result<String, AllocError> {
    let mut lines = Lines {
        text: String::new(alloc),
    };
    lines.write_start(setup, opening.is_opening)?;
    write_opening(&mut lines, uptime_micros, opening)?;
    write_disk_full(&mut lines, waits_for_space)?;
    Ok(lines.text)
}
