//! Figures as JSON.

use crate::figures::{Figures, LatencyFigures, OpeningFigures, Setup};
use crate::sheet::{Family, Sheet, Unit, write_disk_full, write_figures, write_opening};
use crate::tally::BOUNDS;
use serde_json::{Map, Value};
use std::alloc::{AllocError, Global};

// The members of an object.
#[derive(Drop)]
struct Members {
    alloc: Global,
    map: Map<String, Value>,
}

// What stands after a family's name: its unit, where it has one.
fn suffix(unit: Unit) -> &'static str {
    match unit {
        Unit::One => "",
        Unit::Micros => "_microseconds",
    }
}

impl Members {
    fn new(alloc: Global) -> Members {
        Members {
            alloc,
            map: Map::new(alloc),
        }
    }

    // How a server runs, and its state.
    fn put_setup(&mut self, setup: &Setup<'_>, state: &str) -> Result<(), AllocError> {
        self.put_text("version", setup.version)?;
        self.put_text("image", setup.image)?;
        self.put_text("path", setup.path)?;
        self.put_text("export", setup.export)?;
        self.put_text("cache", setup.cache)?;
        self.put_number("size", setup.size)?;
        self.put_number("layout", setup.layout)?;
        self.put_number("workers", setup.workers)?;
        self.put_number("in_flight", setup.in_flight)?;
        self.put_number("loss_bytes", setup.loss_bytes)?;
        self.put_text("state", state)
    }

    fn put(&mut self, key: String, value: Value) -> Result<(), AllocError> {
        self.map.insert(key, value)?;
        Ok(())
    }

    fn put_number(&mut self, key: &str, value: u64) -> Result<(), AllocError> {
        let key = String::from_str(self.alloc, key)?;
        self.put(key, Value::from(value))
    }

    fn put_text(&mut self, key: &str, value: &str) -> Result<(), AllocError> {
        let key = String::from_str(self.alloc, key)?;
        let value = String::from_str(self.alloc, value)?;
        self.put(key, Value::String(value))
    }

    // The key of a family.
    fn key(&self, name: &str, unit: Unit) -> Result<String, AllocError> {
        format!(in self.alloc; "{name}{}", suffix(unit))
    }
}

// A latency: its buckets by their bounds, the number of requests and the sum of their times.
fn latency_value(alloc: Global, latency: &LatencyFigures) -> Result<Value, AllocError> {
    let mut buckets = Members::new(alloc);
    for (bound, count) in BOUNDS.iter().zip(latency.buckets.iter()) {
        let key = format!(in alloc; "{bound}")?;
        buckets.put(key, Value::from(*count))?;
    }
    let mut members = Members::new(alloc);
    let key = String::from_str(alloc, "buckets")?;
    members.put(key, Value::Object(buckets.map))?;
    members.put_number("count", latency.count())?;
    members.put_number("total", latency.total_micros)?;
    Ok(Value::Object(members.map))
}

impl Sheet for Members {
    fn figure(&mut self, family: Family<'_>, value: u64) -> Result<(), AllocError> {
        let key = self.key(family.name, family.unit)?;
        self.put(key, Value::from(value))
    }

    fn labelled(
        &mut self,
        family: Family<'_>,
        _label: &str,
        values: &[(&str, u64)],
    ) -> Result<(), AllocError> {
        let mut members = Members::new(self.alloc);
        for (item, value) in values {
            members.put_number(item, *value)?;
        }
        let key = self.key(family.name, family.unit)?;
        self.put(key, Value::Object(members.map))
    }

    fn latencies(
        &mut self,
        name: &str,
        _help: &str,
        values: &[(&str, &LatencyFigures)],
    ) -> Result<(), AllocError> {
        let mut members = Members::new(self.alloc);
        for (command, latency) in values {
            let key = String::from_str(self.alloc, command)?;
            members.put(key, latency_value(self.alloc, latency)?)?;
        }
        let key = self.key(name, Unit::Micros)?;
        self.put(key, Value::Object(members.map))
    }
}

/// The figures of a server, as one JSON object in a line; and why a call of the device has failed, if one has.
pub fn status_text(
    alloc: Global,
    setup: &Setup<'_>,
    failure: &str,
    figures: &Figures,
) -> Result<String, AllocError> {
    let mut members = Members::new(alloc);
    let state = if figures.has_failed {
        "failed"
    } else {
        "serving"
    };
    members.put_setup(setup, state)?;
    members.put_number("failed", u64::from(figures.has_failed))?;
    members.put_text("failure", failure)?;
    write_figures(&mut members, figures)?;
    Value::Object(members.map).to_string(alloc)
}

/// The figures of a server that still opens its image, as one JSON object in a line.
pub fn opening_status_text(
    alloc: Global,
    setup: &Setup<'_>,
    uptime_micros: u64,
    opening: &OpeningFigures,
    waits_for_space: bool,
) -> Result<String, AllocError> {
    let mut members = Members::new(alloc);
    members.put_setup(setup, "opening")?;
    write_opening(&mut members, uptime_micros, opening)?;
    write_disk_full(&mut members, waits_for_space)?;
    Value::Object(members.map).to_string(alloc)
}
